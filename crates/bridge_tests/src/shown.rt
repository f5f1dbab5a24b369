// Items and images as text.
use aff_core::Aff;
use bridge_face::ChildRows;
use item_core::{Body, Expression, Image, Item, kind_of};
use test_support::Page;

/// Prints an image: its groups, the expressions of the components, its rows and its objective.
pub fn show_image(page: &mut Page, image: &Image) {
    show_items(page, image.groups.as_slice());
    show_components(page, image.exprs.as_slice());
    show_items(page, image.rows.as_slice());
    if let Some(objective) = &image.objective {
        show_item(page, objective);
    }
}

fn show_items(page: &mut Page, items: &[Item]) {
    for item in items {
        show_item(page, item);
    }
}

fn show_components(page: &mut Page, exprs: &[Expression]) {
    for expr in exprs {
        match expr {
            Expression::Kept { var } => page.line(format_args!("    component {var}")),
            Expression::Bridged { func } => show_function(page, func),
        }
    }
}

/// Prints an item: its address, its kind, its functions and its set.
pub fn show_item(page: &mut Page, item: &Item) {
    page.line(format_args!("  {} {}", item.at, kind_of(item)));
    show_functions(page, &item.body);
    show_set(page, &item.body);
}

// Prints the variables, so that the set may stand on their line, or a line for each function.
fn show_functions(page: &mut Page, body: &Body) {
    match body {
        Body::Group { vars, .. } | Body::Free { vars } | Body::PlainVec { vars, .. } => {
            page.word(format_args!("    {:?}", vars.as_slice()));
        }
        Body::Plain { var, .. } | Body::PlainObj { var, .. } => {
            page.word(format_args!("    {var}"));
        }
        Body::Affine { func, .. } | Body::AffineObj { func, .. } => show_function(page, func),
        Body::AffineVec { func, .. } => {
            for func in func.as_slice() {
                show_function(page, func);
            }
        }
    }
}

fn show_set(page: &mut Page, body: &Body) {
    match body {
        Body::Group { set, .. } | Body::Plain { set, .. } | Body::PlainVec { set, .. } => {
            page.line(format_args!(" in {set:?}"));
        }
        Body::Affine { set, .. } | Body::AffineVec { set, .. } => {
            page.line(format_args!("    in {set:?}"));
        }
        Body::Free { .. } | Body::PlainObj { .. } => page.line(""),
        Body::AffineObj { .. } => {}
    }
}

/// Prints where child rows stand.
pub fn show_child_rows(page: &mut Page, rows: Option<ChildRows>) {
    if let Some(rows) = rows {
        page.line(format_args!("  rows {} from {}", rows.count, rows.first));
    }
}

fn show_function(page: &mut Page, func: &Aff) {
    page.word("    ");
    for (at, coefficient) in func.terms() {
        page.word(format_args!("{coefficient}*({at}) "));
    }
    page.line(func.constant());
}
