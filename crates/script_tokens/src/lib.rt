//! The words of a script: the tokens of a line, and what a token means by itself.
#![tactic(auto)]

mod bytes;
mod family;
mod native_kind;
mod number;
mod pieces;
mod table;
mod tokens;

pub use bytes::{are_line_bytes, is};
pub use family::{FAMILIES, family_text, read_family};
pub use native_kind::NativeKind;
pub use number::{is_digits, read_number};
pub use pieces::Pieces;
pub use table::{edge_numbered, read_native_kind, read_target};
pub use tokens::{Tokens, parted_at};
