// Check: is an index sound?
ghost use Rattle.std.specs.Prelude.{◌≡◌};
ghost use Rattle.index_codes.specs.Codes.{code_of};
ghost use Rattle.index_refusals.specs.Refusals.{First, check_rules};
ghost use Rattle.index.specs.declared.checking.Flaw.TheVariants.{Page};
ghost use Rattle.index.specs.CheckAnswers.{refusal_of, page_of, checked_of, CheckAnswer};

use index_codes::Refusal;
use index_refusals::permitted;
use sound_check::Fault;

// Why an index fails the check: its length is not a permitted number of whole pages, or soundness fails at a page.
#[derive(Clone, Copy, Debug, PartialEq, Eq)]
pub enum Flaw {
    Length,
    Page(Fault),
}

impl Flaw {
    // The page at which soundness fails, 0 where it is the length.
    pub fn page(self) -> u32
        ensures { result ≡ page_of self }
    {
        match self {
            Flaw::Length => 0,
            Flaw::Page(fault) => fault.page,
        }
    }
}

impl From<Fault> for Flaw {
    ghost from_gives = { λ fault flaw. flaw ≡ Page fault };

    fn from(fault: Fault) -> Flaw {
        Flaw::Page(fault)
    }
}

impl From<Flaw> for Refusal {
    ghost from_gives = { λ flaw refusal. refusal ≡ refusal_of flaw };

    fn from(flaw: Flaw) -> Refusal {
        match flaw {
            Flaw::Length => Refusal::BadLength,
            Flaw::Page(_) => Refusal::Unsound,
        }
    }
}

// What check answers in C: its number, and with 2 a page at which soundness fails, else 0.
#[derive(Clone, Copy, Debug, PartialEq, Eq)]
pub struct Checked {
    pub code: u32,
    pub page: u32,
}

impl From<Result<(), Flaw>> for Checked {
    ghost from_gives = { λ outcome checked. checked ≡ checked_of outcome };

    fn from(outcome: Result<(), Flaw>) -> Checked {
        match outcome {
            Ok(()) => Checked { code: 0, page: 0 },
            Err(flaw) => Checked {
                code: Refusal::from(flaw).into(),
                page: flaw.page(),
            },
        }
    }
}

// Whether an index is sound.
pub fn check(index: &[u8]) -> Result<(), Flaw>
    ensures { CheckAnswer index.now (checked_of result) }
{
    if !permitted(index.len()) {
        return Err(Flaw::Length);
    }
    sound_check::check(index)?;
    Ok(())
}

// The same, as the acts that begin with the check are refused.
pub fn refuse_index(index: &[u8]) -> Result<(), Refusal>
    ensures { First (check_rules index.now) (code_of result) }
{
    check(index)?;
    Ok(())
}
