//! Which kinds other choices bridge otherwise.
ghost use Rattle.std.specs.Prelude.{◌≡◌, ◌<◌, false, length, slice_index_or};
ghost use Rattle.bridge_set.specs.Bridges.{choice_in};
ghost use Rattle.item_core.specs.Edge.{kinds_in};
ghost use Rattle.item_core.specs.Kind.{kind_count, kind_number};
ghost use Rattle.item_core.specs.declared.kind.Kind.{Kind};
ghost use Rattle.table_change.specs.ChangedKinds.{is_changed, led_to, same_choice};

use bridge_graph::Choice;
use bridge_plan::{Rewriter, edge_of};
use item_core::{Children, KIND_COUNT, KINDS, Kind};

/// The choice of each kind, by its number.
pub type Choices = [Choice; KIND_COUNT];

// How many levels a tree has at most: none has a kind twice on the way down.
const LEVELS: u8 = KIND_COUNT as u8;

/// What a rewriter chooses for each kind.
pub fn list_choices<R: Rewriter>(rewriter: &R) -> [Choice; KIND_COUNT]
    ensures each { (kind : Kind) → choice_in result (kind_number kind)
        ≡ (R.means rewriter.now).choice (kind_number kind) }
    ensures kinds { length result ≡ kind_count }
{
    let mut choices = [Choice::Missing; KIND_COUNT];
    for n in 0..KIND_COUNT {
        choices[n] = rewriter.choice(kind_numbered(n));
    }
    choices
}

/// Of each kind, by its number, whether its other choice is another, or that of a kind to which the
/// choices lead from it.
pub fn changed_kinds(
    choices: &[Choice; KIND_COUNT],
    others: &[Choice; KIND_COUNT],
) -> [bool; KIND_COUNT]
    ensures each { (kind : Kind) → slice_index_or result (kind_number kind) false
        ≡ is_changed (choice_in choices.now) (choice_in others.now) kind_count kind }
    ensures kinds { length result ≡ kind_count }
{
    let mut changed = [false; KIND_COUNT];
    for n in 0..KIND_COUNT {
        changed[n] = is_changed(choices, others, kind_numbered(n), LEVELS);
    }
    changed
}

fn is_changed(
    choices: &[Choice; KIND_COUNT],
    others: &[Choice; KIND_COUNT],
    kind: Kind,
    levels: u8,
) -> bool
    ensures { result ≡ is_changed (choice_in choices.now) (choice_in others.now) levels kind }
{
    if levels == 0 {
        return false;
    }
    let choice = choice_of(choices, kind);
    if !same_choice(choice, choice_of(others, kind)) {
        return true;
    }
    let below = levels - 1;
    match led_to(choice) {
        Children::None => false,
        Children::One(only) => is_changed(choices, others, only, below),
        Children::Two(first, last) => {
            if is_changed(choices, others, first, below) {
                return true;
            }
            is_changed(choices, others, last, below)
        }
        Children::Three(first, second, last) => {
            if is_changed(choices, others, first, below) {
                return true;
            }
            if is_changed(choices, others, second, below) {
                return true;
            }
            is_changed(choices, others, last, below)
        }
    }
}

// The kind of a number.
fn kind_numbered(n: usize) -> Kind
    requires { n < kind_count }
    ensures { kind_number result ≡ n }
{
    KINDS.kinds[n]
}

// The choice of a kind.
fn choice_of(choices: &[Choice; KIND_COUNT], kind: Kind) -> Choice
    ensures { result ≡ choice_in choices.now (kind_number kind) }
{
    choices[kind as usize]
}

fn same_choice(one: Choice, other: Choice) -> bool
    ensures { result ≡ same_choice one other }
{
    match (one, other) {
        (Choice::Native, Choice::Native) | (Choice::Missing, Choice::Missing) => true,
        (Choice::By(edge), Choice::By(number)) => edge == number,
        _ => false,
    }
}

// The kinds that a choice leads to.
fn led_to(choice: Choice) -> Children
    ensures { kinds_in result ≡ led_to choice }
{
    match choice {
        Choice::By(edge) => edge_of(edge).entry().children,
        Choice::Native | Choice::Missing => Children::None,
    }
}
