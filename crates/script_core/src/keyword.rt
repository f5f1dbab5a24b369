//! The first words of lines.
ghost use Rattle.std.specs.Prelude.{◌≡◌, Some};
ghost use Rattle.script_core.specs.declared.keyword.Keyword.{Keyword};
ghost use Rattle.script_core.specs.Keyword.{keyword_of, keyword_text};

use script_tokens::is;

/// The first word of a line, by which its form is known.
#[derive(Clone, Copy, Debug, PartialEq, Eq)]
pub enum Keyword {
    Var,
    Vars,
    Bound,
    Row,
    Vbound,
    Vrow,
    Min,
    Max,
    Minvar,
    Maxvar,
    Feasibility,
    Coef,
    Vcoef,
    Const,
    Vconst,
    Objcoef,
    Objconst,
    Set,
    Reset,
    Free,
    Delvar,
    Delrow,
    Renvar,
    Renrow,
    Target,
    Support,
    Unsupport,
    Cost,
    On,
    Off,
    Attach,
    Detach,
    Begin,
    Commit,
    Abandon,
    Optimize,
    Bridged,
    Plan,
    Write,
    Load,
    Quit,
}

macro_rules! keywords {
    ($($keyword:ident)*) => {
        [$(Keyword::$keyword),*]
    };
}

/// The keywords, in order.
pub const KEYWORDS: [Keyword; 41] = keywords! {
    Var Vars Bound Row Vbound Vrow Min Max Minvar Maxvar Feasibility Coef Vcoef Const Vconst
    Objcoef Objconst Set Reset Free Delvar Delrow Renvar Renrow Target Support Unsupport Cost On
    Off Attach Detach Begin Commit Abandon Optimize Bridged Plan Write Load Quit
};

impl Keyword {
    pub fn text(self) -> &'static str
        ensures { result.now ≡ keyword_text self }
    {
        match self {
            Keyword::Var => "var",
            Keyword::Vars => "vars",
            Keyword::Bound => "bound",
            Keyword::Row => "row",
            Keyword::Vbound => "vbound",
            Keyword::Vrow => "vrow",
            Keyword::Min => "min",
            Keyword::Max => "max",
            Keyword::Minvar => "minvar",
            Keyword::Maxvar => "maxvar",
            Keyword::Feasibility => "feasibility",
            Keyword::Coef => "coef",
            Keyword::Vcoef => "vcoef",
            Keyword::Const => "const",
            Keyword::Vconst => "vconst",
            Keyword::Objcoef => "objcoef",
            Keyword::Objconst => "objconst",
            Keyword::Set => "set",
            Keyword::Reset => "reset",
            Keyword::Free => "free",
            Keyword::Delvar => "delvar",
            Keyword::Delrow => "delrow",
            Keyword::Renvar => "renvar",
            Keyword::Renrow => "renrow",
            Keyword::Target => "target",
            Keyword::Support => "support",
            Keyword::Unsupport => "unsupport",
            Keyword::Cost => "cost",
            Keyword::On => "on",
            Keyword::Off => "off",
            Keyword::Attach => "attach",
            Keyword::Detach => "detach",
            Keyword::Begin => "begin",
            Keyword::Commit => "commit",
            Keyword::Abandon => "abandon",
            Keyword::Optimize => "optimize",
            Keyword::Bridged => "bridged",
            Keyword::Plan => "plan",
            Keyword::Write => "write",
            Keyword::Load => "load",
            Keyword::Quit => "quit",
        }
    }

    /// The keyword that a token is. Each keyword is read.
    #[tactic(auto, unfolding(crate::specs::Keyword::keyword_of))]
    pub fn read(token: &[u8]) -> Option<Keyword>
        ensures value { result ≡ keyword_of token.now }
        ensures reads_back { (keyword : Keyword)
            → keyword_of (keyword_text keyword) ≡ Some keyword }
    {
        KEYWORDS
            .iter()
            .copied()
            .find(|keyword| is(token, keyword.text()))
    }
}
