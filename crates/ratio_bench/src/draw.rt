// Operands drawn by a linear congruence.
ghost use Rattle.std.specs.Prelude.{◌<◌, ◌≤◌, ◌≤ℤ◌, ◌^◌, pos};

use ratio_core::{Ratio, RatioFault};
use std::alloc::{AllocError, Global};

/// How large the parts of the operands are.
#[derive(Clone, Copy)]
pub enum Size {
    /// 7 bits, over 1.
    Whole,
    /// 7 bits.
    Small,
    /// 31 bits.
    Medium,
    /// 62 bits, whose products are near the limit.
    Limit,
    /// 126 bits, whose products pass 128 bits.
    Wide,
    /// Each part of as many bits as it happens, up to 126.
    Mixed,
}

impl Size {
    pub fn named(word: &str) -> Option<Size> {
        match word {
            "whole" => Some(Size::Whole),
            "small" => Some(Size::Small),
            "medium" => Some(Size::Medium),
            "limit" => Some(Size::Limit),
            "wide" => Some(Size::Wide),
            "mixed" => Some(Size::Mixed),
            _ => None,
        }
    }

    // How many bits the next part has at most.
    fn bits(self, draw: &mut Draw) -> u32
        ensures { result ≤ 126 }
    {
        match self {
            Size::Whole | Size::Small => 7,
            Size::Medium => 31,
            Size::Limit => 62,
            Size::Wide => 126,
            Size::Mixed => ((draw.next() >> 57) % 127) as u32,
        }
    }
}

const OPERANDS: usize = 1024;

/// The operands of this size.
pub fn operands(alloc: Global, size: Size) -> Result<Vec<Ratio>, AllocError> {
    let mut operands = Vec::with_capacity(alloc, OPERANDS)?;
    let mut draw = Draw::new(1);
    for _ in 0..OPERANDS {
        if let Ok(operand) = draw.operand(size) {
            operands.push(operand)?;
        }
    }
    Ok(operands)
}

#[derive(Drop)]
pub struct Draw {
    state: u64,
}

impl Draw {
    pub fn new(seed: u64) -> Draw {
        Draw { state: seed }
    }

    /// The next operand.
    pub fn operand(&mut self, size: Size) -> Result<Ratio, RatioFault> {
        let bits = size.bits(self);
        let num = self.part(bits);
        let num = if self.next() >= 1 << 63 { -num } else { num };
        let bits = size.bits(self);
        let den = match size {
            Size::Whole => 1,
            _ => self.part(bits) + 1,
        };
        Ratio::new(num, den)
    }

    fn next(&mut self) -> u64 {
        self.state = self
            .state
            .wrapping_mul(6364136223846793005)
            .wrapping_add(1442695040888963407);
        self.state
    }

    // A number of n bits: the highest of two draws, which are the best of such a congruence.
    fn part(&mut self, bits: u32) -> i128
        requires { bits ≤ 126 }
        ensures low { pos 0 ≤ℤ result }
        ensures high { result ≤ℤ pos (2 ^ 126) }
    {
        let (high, low) = (self.next() >> 1, self.next() >> 1);
        let wide = ((high as u128) << 63) + low as u128;
        (wide >> (126 - bits)) as i128
    }
}
