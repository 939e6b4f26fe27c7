// The words of a journal's language.
ghost use Rattle.std.specs.Prelude.{◌≡◌};
ghost use Rattle.std.specs.Option.{ok_or};
ghost use Rattle.journal_text.specs.declared.mistake.Mistake.TheVariants.{UnknownCommand, UnknownKind, UnknownStore, UnknownList};
ghost use Rattle.journal_words.specs.Verbs.{beside, kinds, stores, lists, verb_of, bindable};

use crate::command::KindName;
use journal_text::mistake::Mistake;
use std::str::FromStr;

// The word that begins a command.
#[derive(Clone, Copy)]
pub enum Verb {
    Layout,
    Exchange,
    SetType,
    Table,
    Walk,
    Output,
    Constant,
    Mark,
    Sum,
    Difference,
    Product,
    Restrict,
    Read,
    Hold,
    LetGo,
    Sweep,
    Size,
    Write,
    Grade,
    Release,
    Reopen,
    Show,
}

impl FromStr for Verb {
    type Err = Mistake;

    ghost from_str_gives = { λ word r. r ≡ ok_or (verb_of word) UnknownCommand };

    fn from_str(word: &str) -> Result<Verb, Mistake> {
        match word {
            "layout" => Ok(Verb::Layout),
            "exchange" => Ok(Verb::Exchange),
            "type" => Ok(Verb::SetType),
            "table" => Ok(Verb::Table),
            "walk" => Ok(Verb::Walk),
            "output" => Ok(Verb::Output),
            "constant" => Ok(Verb::Constant),
            "mark" => Ok(Verb::Mark),
            "sum" => Ok(Verb::Sum),
            "difference" => Ok(Verb::Difference),
            "product" => Ok(Verb::Product),
            "restrict" => Ok(Verb::Restrict),
            "read" => Ok(Verb::Read),
            "hold" => Ok(Verb::Hold),
            "let-go" => Ok(Verb::LetGo),
            "sweep" => Ok(Verb::Sweep),
            "size" => Ok(Verb::Size),
            "write" => Ok(Verb::Write),
            "grade" => Ok(Verb::Grade),
            "release" => Ok(Verb::Release),
            "reopen" => Ok(Verb::Reopen),
            "show" => Ok(Verb::Show),
            _ => Err(Mistake::UnknownCommand),
        }
    }
}

impl Verb {
    // Whether the command answers a handle, which a name can be bound to.
    pub fn answers_handle(self) -> bool
        ensures { result ≡ bindable self }
    {
        matches!(
            self,
            Verb::Constant
                | Verb::Mark
                | Verb::Sum
                | Verb::Difference
                | Verb::Product
                | Verb::Restrict
                | Verb::Read
        )
    }
}

impl FromStr for KindName {
    type Err = Mistake;

    ghost from_str_gives = { λ word r. r ≡ ok_or (beside kinds word) UnknownKind };

    fn from_str(word: &str) -> Result<KindName, Mistake> {
        match word {
            "yesno" => Ok(KindName::YesNo),
            "points" => Ok(KindName::Points),
            _ => Err(Mistake::UnknownKind),
        }
    }
}

// The word that begins a store.
#[derive(Clone, Copy)]
pub enum StoreWord {
    Last,
    Own,
    Lent,
}

impl FromStr for StoreWord {
    type Err = Mistake;

    ghost from_str_gives = { λ word r. r ≡ ok_or (beside stores word) UnknownStore };

    fn from_str(word: &str) -> Result<StoreWord, Mistake> {
        match word {
            "last" => Ok(StoreWord::Last),
            "own" => Ok(StoreWord::Own),
            "lent" => Ok(StoreWord::Lent),
            _ => Err(Mistake::UnknownStore),
        }
    }
}

// A list that can be shown.
#[derive(Clone, Copy)]
pub enum ListName {
    Walk,
    Output,
}

impl FromStr for ListName {
    type Err = Mistake;

    ghost from_str_gives = { λ word r. r ≡ ok_or (beside lists word) UnknownList };

    fn from_str(word: &str) -> Result<ListName, Mistake> {
        match word {
            "walk" => Ok(ListName::Walk),
            "output" => Ok(ListName::Output),
            _ => Err(Mistake::UnknownList),
        }
    }
}
