//! What a line is answered is one thing: an optimise and a look at the solver's model have one
//! answer whatever lines led there, and lines that follow one another from one machine have one
//! text. Each law is the clause of a function that does nothing; its files in specs/ are what other
//! crates cite.
#![tactic(auto)]

ghost use Rattle.one_answer_laws.specs.OneAnswer.{OneAnswer};
ghost use Rattle.one_answer_laws.specs.OneText.{OneText};

/// States the law of one answer: two sessions without an open group, whose models are valid and
/// differ in nothing but their numbers, with equal tables, families and allowances of pivots, and
/// both solvers attached or neither, answer `optimize` and `bridged` alike, unless memory runs out,
/// as long as each edge costs something.
pub fn one_answer()
    ensures { OneAnswer }
{}

/// States the law of one text: the text by which the script machine answers lines, whether one was
/// refused, and the machine that they leave, with the edits of an open group, are a function of the
/// machine before them, the lines and the files that they load, as long as each edge costs
/// something.
pub fn one_text()
    ensures { OneText }
{}
