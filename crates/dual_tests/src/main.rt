// Makes the dual of models, writes it, and carries a point of it back.
#![tactic(auto)]

mod models;

use dualization::{Carried, DualFault, carry, dual, is_point};
use lists::Memory;
use model_store::UserModel;
use ratio_core::{Ratio, Ratios};
use report_core::Place;
use std::alloc::Global;
use std::process::ExitCode;
use test_support::Page;
use user_model::Edit;

fn main(rt: HostRuntime) -> ExitCode {
    let mut page = Page::new(&rt);
    for (name, text, x) in &models::MODELS {
        page.line(*name);
        show(&mut page, text.as_bytes(), x);
    }
    page.status()
}

fn show(page: &mut Page, text: &[u8], x: &[i64]) {
    let alloc = page.alloc();
    let Ok(edits) = mof_read::read(alloc, text) else {
        page.line("not read");
        return;
    };
    let Ok(model) = made(alloc, edits.into_vec()) else {
        page.line("not made");
        return;
    };
    match dual(alloc, &model) {
        Ok(edits) => show_dual(page, edits.into_vec()),
        Err(fault) => show_fault(page, &fault),
    }
    let Ok(point) = point_of(alloc, x) else {
        return;
    };
    if !is_point(&model, &point) {
        page.line("no point of the dual");
        return;
    }
    match carry(alloc, &model, &point) {
        Ok(carried) => show_carried(page, &carried),
        Err(fault) => show_fault(page, &fault),
    }
}

fn show_dual(page: &mut Page, edits: Vec<Edit>) {
    let alloc = page.alloc();
    let Ok(model) = made(alloc, edits) else {
        page.line("dual not made");
        return;
    };
    match mof_write::write(alloc, &model) {
        Ok(text) => match str::from_utf8(text.as_slice()) {
            Ok(text) => page.line(text),
            Err(_) => page.line("no text"),
        },
        Err(Memory) => page.line("out of memory"),
    }
}

fn show_fault(page: &mut Page, fault: &DualFault) {
    match fault {
        DualFault::Overflow {
            place: Place::Row(name),
        } => {
            page.word("overflow row ");
            page.line(name.text());
        }
        DualFault::Overflow {
            place: Place::Var(name),
        } => {
            page.word("overflow var ");
            page.line(name.text());
        }
        DualFault::Overflow { .. } => page.line("overflow elsewhere"),
        DualFault::Memory => page.line("out of memory"),
    }
}

fn show_carried(page: &mut Page, carried: &Carried) {
    for row in carried.rows.as_slice() {
        page.word("row");
        for number in row.as_slice() {
            show_number(page, number);
        }
        page.line("");
    }
    page.word("vars");
    for number in carried.vars.as_slice() {
        show_number(page, number);
    }
    page.line("");
}

fn show_number(page: &mut Page, number: &Ratio) {
    page.word(" ");
    page.word(number.num());
    if number.den() != 1 {
        page.word("/");
        page.word(number.den());
    }
}

fn made(alloc: Global, edits: Vec<Edit>) -> Result<UserModel, Memory> {
    let mut model = UserModel::new(alloc);
    match make_all(&mut model, edits) {
        Ok(()) => Ok(model),
        Err(_) => Err(Memory),
    }
}

fn make_all(model: &mut UserModel, edits: Vec<Edit>) -> Result<(), Memory> {
    for edit in edits {
        match model.apply(edit) {
            Ok(undo) => model.settle(undo),
            Err(_) => return Err(Memory),
        }
    }
    Ok(())
}

fn point_of(alloc: Global, x: &[i64]) -> Result<Ratios, Memory> {
    let mut numbers = Vec::new(alloc);
    for number in x {
        match Ratio::new(i128::from(*number), 1) {
            Ok(number) => numbers.push(number)?,
            Err(_) => return Err(Memory),
        }
    }
    Ok(Ratios::from_vec(numbers))
}
