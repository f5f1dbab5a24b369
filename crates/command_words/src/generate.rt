//! The numbers that a script is generated from, as words.
ghost use Rattle.std.specs.Prelude.{◌≡◌};
ghost use Rattle.command_words.specs.Generate.{recipe_in};
ghost use Rattle.command_words.specs.Texts.{texts};

use generated_script::Recipe;
use script_tokens::read_number;

// The numbers, where four words write them and they are within their limits.
pub(crate) fn read_recipe(words: &[String]) -> Option<Recipe>
    ensures { result ≡ recipe_in (texts words.now) }
{
    match words {
        [seed, vars, rows, edits] => {
            let seed = read_number(seed.as_bytes())?;
            let vars = read_number(vars.as_bytes())?;
            let rows = read_number(rows.as_bytes())?;
            let edits = read_number(edits.as_bytes())?;
            Recipe::new(seed, vars, rows, edits)
        }
        _ => None,
    }
}
