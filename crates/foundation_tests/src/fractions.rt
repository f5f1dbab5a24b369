// Fractions. What they come to was computed with Python's exact fractions.
use crate::literals::{OPERATIONS, PAIRS, PARTS};
use crate::orders::{ORDERS, QUOTIENTS};
use ratio_core::{Ratio, RatioFault};
use std::cmp::Ordering;
use test_support::Page;

#[derive(Clone, Copy)]
pub enum Operation {
    Plus,
    Minus,
    Times,
    Over,
}

/// The parts of numbers, what operations on them give, and their orders, with those of quotients.
pub fn show(page: &mut Page) {
    page.line("# fractions");
    for literal in &PARTS {
        show_parts(page, literal);
    }
    for (n, d) in &PAIRS {
        page.word(format_args!("{n} over {d} = "));
        show_result(page, Ratio::new(*n, *d));
    }
    for (left, operation, right) in &OPERATIONS {
        show_operation(page, left, *operation, right);
    }
    show_orders(page);
}

fn show_orders(page: &mut Page) {
    for (left, right) in &ORDERS {
        show_order(page, left, right);
    }
    for literals in &QUOTIENTS {
        show_quotients(page, literals);
    }
}

fn number(literal: &str) -> Option<Ratio> {
    Ratio::read(literal.as_bytes())
}

fn show_parts(page: &mut Page, literal: &str) {
    page.word(format_args!("{literal} = "));
    match number(literal) {
        Some(q) => {
            page.word(format_args!("{} over {}, ", q.num(), q.den()));
            page.line(format_args!("sign {}, {} and {}", q.sign(), q.neg(), q.abs()));
        }
        None => page.line("none"),
    }
}

fn show_operation(page: &mut Page, left: &str, operation: Operation, right: &str) {
    page.word(format_args!("{left} {} {right} = ", sign(operation)));
    match (number(left), number(right)) {
        (Some(p), Some(q)) => show_result(page, made_of(&p, operation, &q)),
        _ => page.line("none"),
    }
}

fn sign(operation: Operation) -> char {
    match operation {
        Operation::Plus => '+',
        Operation::Minus => '-',
        Operation::Times => '*',
        Operation::Over => '/',
    }
}

fn made_of(p: &Ratio, operation: Operation, q: &Ratio) -> Result<Ratio, RatioFault> {
    match operation {
        Operation::Plus => p.add(q),
        Operation::Minus => p.sub(q),
        Operation::Times => p.mul(q),
        Operation::Over => p.div(q),
    }
}

fn show_result(page: &mut Page, made: Result<Ratio, RatioFault>) {
    match made {
        Ok(q) => page.line(q),
        Err(fault) => page.line(format_args!("{fault:?}")),
    }
}

fn show_order(page: &mut Page, left: &str, right: &str) {
    if let (Some(p), Some(q)) = (number(left), number(right)) {
        page.line(format_args!("{left} < {right} = {:?}", p.cmp(&q)));
    }
}

fn show_quotients(page: &mut Page, literals: &[&str; 4]) {
    let [p, a, q, b] = literals;
    page.word(format_args!("{p} by {a} < {q} by {b} = "));
    if let (Some(p), Some(a)) = (number(p), number(a)) {
        if let (Some(q), Some(b)) = (number(q), number(b)) {
            page.line(format_args!("{:?}", order(p, a, q, b)));
        }
    }
}

// Of the quotients of `p` by `a` and of `q` by `b`, which are to be more than 0.
fn order(p: Ratio, a: Ratio, q: Ratio, b: Ratio) -> Ordering {
    let zero = Ratio::zero();
    match (zero.cmp(&a), zero.cmp(&b)) {
        (Ordering::Less, Ordering::Less) => p.cmp_quotients(&a, &q, &b),
        (other, _) => other,
    }
}
