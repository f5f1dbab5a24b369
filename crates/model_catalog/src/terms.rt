//! How many terms rows have.
ghost use Rattle.std.specs.Prelude.{◌≡◌, ◌+◌, ◌<◌, ◌^◌, length, map, sum};
ghost use Rattle.aff_core.specs.Function.{terms_of};
ghost use Rattle.user_model.specs.Functions.{all_terms, term_count};
ghost use Rattle.model_catalog.specs.Terms.{changed_terms, content_terms};

use aff_core::Aff;
use numbered_list::Change;
use user_model::{Row, UserFunc};

// How many terms the rows have that are to stand.
pub(crate) fn changed_terms(changes: &[Change<Row>]) -> u64
    requires { changed_terms changes.now < 2 ^ 64 }
    ensures { result ≡ changed_terms changes.now }
{
    let mut count = 0;
    for change in changes {
        count += content_terms(&change.content);
    }
    count
}

// How many terms the row has, if there is one.
fn content_terms(content: &Option<Row>) -> u64
    requires { content_terms content.now < 2 ^ 64 }
    ensures { result ≡ content_terms content.now }
{
    match content {
        Some(row) => all_terms(&row.func),
        None => 0,
    }
}

fn all_terms(func: &UserFunc) -> u64
    requires { all_terms func.now < 2 ^ 64 }
    ensures { result ≡ all_terms func.now }
{
    match func {
        UserFunc::Affine(f) => f.term_count() as u64,
        UserFunc::AffineVec(fs) => total_terms(fs.as_slice()),
        UserFunc::Plain(_) | UserFunc::PlainVec(_) => 0,
    }
}

fn total_terms(functions: &[Aff]) -> u64
    requires { sum (map term_count functions.now) < 2 ^ 64 }
    ensures { result ≡ sum (map term_count functions.now) }
{
    let mut count = 0;
    for f in functions {
        count += f.term_count() as u64;
    }
    count
}
