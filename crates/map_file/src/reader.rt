//! The reader of the file's lines, and what the lines so far say.
ghost use Rattle.std.specs.Prelude.{◌≡◌, ◌<◌, ◌++◌, ◌∷◌, [], None, IfOk, IfSome, OnOk, ◌&&◌, ◌==◌, is_none, length, option_and_then};
ghost use Rattle.std.specs.Str.{IsUtf8};
ghost use Rattle.map_file.specs.Lines.{line_read, map_name_of, map_read, no_progress, numbers_read, place_of, size_at, statement_read, stopped, use_read, whole_of, words_of, wrong_end};
ghost use Rattle.map_file.specs.Progress.{IsReaderInStep, MovesReader, progress_of};
ghost use Rattle.map_file.specs.Shaped.{IsBegun, IsMapWhole};

use crate::file::MapFile;
use crate::map_text::MapText;
use crate::numbers::read_numbers;
use crate::size::read_size;
use crate::use_text::UseText;
use crate::words::map_name;
use lists::{Memory, Sequence};
use name_index::{Name, Text};
use ratio_core::Ratios;
use script_core::vector_set;
use script_tokens::{Pieces, is};
use std::alloc::Global;
use std::collections::HashMap;

/// The maps and the uses so far, the places of the maps by name, and a map some of whose lines are
/// still to come.
#[derive(Drop)]
pub(crate) struct Reader {
    alloc: Global,
    maps: Sequence<MapText>,
    places: HashMap<String, usize>,
    uses: Sequence<UseText>,
    lacking: Option<MapText>,
}

impl Reader {
    pub(crate) fn new(alloc: Global) -> Reader
        ensures empty { progress_of result ≡ no_progress }
        ensures in_step { IsReaderInStep result }
    {
        Reader {
            alloc,
            maps: Sequence::new(alloc),
            places: HashMap::new(alloc),
            uses: Sequence::new(alloc),
            lacking: None,
        }
    }

    /// The wrong line of a file that ends here, if there is one: this one, which no newline ends.
    pub(crate) fn wrong_end(&self, last: &[u8], number: u32) -> Option<u32>
        ensures { result ≡ wrong_end number (progress_of self.now) last.now }
    {
        if self.is_over(last) {
            None
        } else {
            Some(number)
        }
    }

    // Whether nothing is after the last newline, and the last map has its lines.
    fn is_over(&self, last: &[u8]) -> bool
        ensures { result ≡ (length last.now == 0 && is_none (progress_of self.now).lacking) }
    {
        last.is_empty() && self.lacking.is_none()
    }

    /// What the file says, as far as it was read.
    pub(crate) fn stopped(self, wrong: Option<u32>) -> MapFile
        ensures { result ≡ stopped (progress_of self) wrong }
    {
        let Reader {
            alloc: _alloc,
            maps,
            places: _places,
            uses,
            lacking: _lacking,
        } = self;
        MapFile { maps, uses, wrong }
    }

    /// Reads a line, and says whether it is right.
    pub(crate) fn line(&mut self, line: &[u8], number: u32) -> Result<bool, Memory>
        requires { IsReaderInStep self.old }
        ensures { IfOk result (λ right. MovesReader right self.old self.new
            (line_read number (progress_of self.old) line.now)) }
    {
        match self.lacking.take() {
            Some(map) => self.map_line(map, line),
            None => self.statement(line, number),
        }
    }

    // A line of numbers of a map.
    #[tactic(auto, unfolding(crate::specs::Lines::numbers_read))]
    fn map_line(&mut self, map: MapText, line: &[u8]) -> Result<bool, Memory>
        requires in_step { IsReaderInStep self.old }
        requires alone { self.old.lacking ≡ None }
        requires begun { IsBegun map }
        requires new_name { place_of self.old.maps map.name ≡ None }
        requires name { IsUtf8 map.name }
        ensures { IfOk result (λ right. MovesReader right self.old self.new
            (numbers_read (whole_of (progress_of self.old)) map line.now)) }
    {
        let Some(numbers) = read_numbers(self.alloc, line)? else {
            return Ok(false);
        };
        if numbers.len() != map.size {
            return Ok(false);
        }
        let map = with_line(map, numbers)?;
        if map.lines.len() < 2 * map.size {
            self.lacking = Some(map);
        } else {
            self.keep(map)?;
        }
        Ok(true)
    }

    // Keeps a map that has all its lines.
    fn keep(&mut self, map: MapText) -> Result<(), Memory>
        requires in_step { IsReaderInStep self.old }
        requires alone { self.old.lacking ≡ None }
        requires whole { IsMapWhole map }
        requires new_name { place_of self.old.maps map.name ≡ None }
        requires name { IsUtf8 map.name }
        ensures { OnOk result (IsReaderInStep self.new × (progress_of self.new
            ≡ record { maps = self.old.maps ++ map ∷ []; uses = self.old.uses; lacking = None })) }
    {
        let place = self.maps.len();
        let name = String::from_utf8(Vec::from_slice(self.alloc, map.name.as_slice())?);
        let Ok(name) = name else {
            unreachable!();
        };
        self.places.insert(name, place)?;
        match self.maps.push(map) {
            Ok(()) => Ok(()),
            Err((_, memory)) => Err(memory),
        }
    }

    // A line that begins a map, or uses one.
    #[tactic(auto, unfolding(crate::specs::Lines::statement_read))]
    fn statement(&mut self, line: &[u8], number: u32) -> Result<bool, Memory>
        requires in_step { IsReaderInStep self.old }
        requires alone { self.old.lacking ≡ None }
        ensures { IfOk result (λ right. MovesReader right self.old self.new
            (statement_read number (whole_of (progress_of self.old)) (words_of line.now))) }
    {
        let mut words = Pieces::new(line, b' ');
        let (Some(first), Some(second), Some(third)) = (words.next(), words.next(), words.next())
        else {
            return Ok(false);
        };
        match (words.next(), words.next()) {
            (None, _) if is(first, "map") => self.begin(second, third),
            (Some(fourth), None) if is(first, "use") => {
                self.use_of(second, third, fourth, number)
            }
            _ => Ok(false),
        }
    }

    // NAME D
    #[tactic(auto, unfolding(crate::specs::Lines::map_read))]
    fn begin(&mut self, name: &[u8], size: &[u8]) -> Result<bool, Memory>
        requires in_step { IsReaderInStep self.old }
        requires alone { self.old.lacking ≡ None }
        ensures { IfOk result (λ right. MovesReader right self.old self.new
            (map_read (whole_of (progress_of self.old)) name.now size.now)) }
    {
        let (Some(name), Some(size)) = (map_name(name), read_size(size)) else {
            return Ok(false);
        };
        if self.places.get(name).is_some() {
            return Ok(false);
        }
        let name = Text::from_vec(Vec::from_slice(self.alloc, name.as_bytes())?);
        let lines = Sequence::new(self.alloc);
        self.lacking = Some(MapText { name, size, lines });
        Ok(true)
    }

    // NAME ROW SET
    #[tactic(auto, unfolding(crate::specs::Lines::use_read))]
    fn use_of(&mut self, name: &[u8], row: &[u8], set: &[u8], line: u32) -> Result<bool, Memory>
        requires in_step { IsReaderInStep self.old }
        requires alone { self.old.lacking ≡ None }
        ensures { IfOk result (λ right. MovesReader right self.old self.new
            (use_read line (whole_of (progress_of self.old)) name.now row.now set.now)) }
    {
        let Some(map) = self.place(name) else {
            return Ok(false);
        };
        let Some(row) = Name::unescape(self.alloc, row)? else {
            return Ok(false);
        };
        let Some(set) = vector_set(set, self.size_at(map)) else {
            return Ok(false);
        };
        self.keep_use(UseText {
            map,
            row,
            set,
            line,
        })?;
        Ok(true)
    }

    fn keep_use(&mut self, used: UseText) -> Result<(), Memory>
        requires in_step { IsReaderInStep self.old }
        requires alone { self.old.lacking ≡ None }
        requires within { used.map < length self.old.maps }
        ensures { OnOk result (IsReaderInStep self.new × (progress_of self.new
            ≡ record { maps = self.old.maps; uses = self.old.uses ++ used ∷ []; lacking = None })) }
    {
        match self.uses.push(used) {
            Ok(()) => Ok(()),
            Err((_, memory)) => Err(memory),
        }
    }

    // The place of the map with a name.
    fn place(&self, name: &[u8]) -> Option<usize>
        requires { IsReaderInStep self.now }
        ensures value { result ≡ option_and_then (place_of self.now.maps) (map_name_of name.now) }
        ensures within { IfSome result (λ place. place < length self.now.maps) }
    {
        let name = map_name(name)?;
        self.places.get(name).copied()
    }

    fn size_at(&self, place: usize) -> u32
        requires in_step { IsReaderInStep self.now }
        requires within { place < length self.now.maps }
        ensures { result ≡ size_at self.now.maps place }
    {
        match self.maps.get(place) {
            Some(map) => map.size as u32,
            None => unreachable!(),
        }
    }
}

// A map with a line more.
fn with_line(map: MapText, numbers: Ratios) -> Result<MapText, Memory>
    ensures { IfOk result (λ longer. longer ≡ record map { lines = map.lines ++ numbers ∷ [] }) }
{
    let MapText {
        name,
        size,
        mut lines,
    } = map;
    match lines.push(numbers) {
        Ok(()) => Ok(MapText { name, size, lines }),
        Err((_, memory)) => Err(memory),
    }
}
