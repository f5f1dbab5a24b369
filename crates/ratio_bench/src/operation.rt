// What is measured, and what is compared.
use crate::draw::{Draw, Size};
use ratio_core::{Ratio, RatioFault};
use std::cmp::Ordering;

#[derive(Clone, Copy)]
pub enum Operation {
    Add,
    Multiply,
    Compare,
}

impl Operation {
    pub fn named(word: &str) -> Option<Operation> {
        match word {
            "add" => Some(Operation::Add),
            "mul" => Some(Operation::Multiply),
            "cmp" => Some(Operation::Compare),
            _ => None,
        }
    }
}

/// The results of the operation on each two neighbours, mixed, of this number of rounds.
pub fn checksum(operation: Operation, operands: &[Ratio], rounds: u32) -> u64 {
    let mut sum = 0u64;
    for _ in 0..rounds {
        for i in 1..operands.len() {
            let (left, right) = (&operands[i - 1], &operands[i]);
            let answer = match operation {
                Operation::Add => digest(left.add(right)),
                Operation::Multiply => digest(left.mul(right)),
                Operation::Compare => order(left.cmp(right)),
            };
            sum = mixed(sum, answer);
        }
    }
    sum
}

/// The results of all operations on each two neighbours of some operands, drawn from the seed.
pub fn comparison(size: Size, seed: u64, count: u32) -> u64 {
    let mut draw = Draw::new(seed);
    let mut left = Ratio::zero();
    let mut sum = 0u64;
    for _ in 0..count {
        if let Ok(right) = draw.operand(size) {
            for answer in [
                digest(left.add(&right)),
                digest(left.sub(&right)),
                digest(left.mul(&right)),
                digest(left.div(&right)),
                order(left.cmp(&right)),
            ] {
                sum = mixed(sum, answer);
            }
            left = right;
        }
    }
    sum
}

// Every part of the answer, or which refusal it is.
fn digest(answer: Result<Ratio, RatioFault>) -> u64 {
    match answer {
        Ok(value) => {
            let (num, den) = (value.num().cast_unsigned(), value.den().cast_unsigned());
            mixed(mixed(mixed(low(num), high(num)), low(den)), high(den))
        }
        Err(RatioFault::Overflow) => 1,
        Err(RatioFault::ZeroDenominator) => 2,
    }
}

// 2, 0 or 1, without a branch.
fn order(answer: Ordering) -> u64 {
    u64::from(answer.is_lt()) * 2 + u64::from(answer.is_gt())
}

fn mixed(sum: u64, word: u64) -> u64 {
    sum.wrapping_mul(31).wrapping_add(word)
}

fn low(n: u128) -> u64 {
    (n & 0xFFFF_FFFF_FFFF_FFFF) as u64
}

fn high(n: u128) -> u64 {
    (n >> 64) as u64
}
