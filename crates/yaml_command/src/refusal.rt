//! Why the program ends without an answer.
ghost use Rattle.std.specs.Prelude.{◌≡◌};
ghost use Rattle.yaml_command.specs.Statuses.{fault_status};

use yaml_args::WordsFault;
use yaml_events::EventFault;
use yaml_text::Side;
use yaml_text::fault::Fault;

/// The status of an input that is refused.
const REFUSED: u8 = 2;

/// The status where the words, a file or a stream can't be used.
const UNUSABLE: u8 = 3;

/// Why the program ends without an answer. `line::tell` writes the line of standard error that tells it.
#[derive(Clone, Copy, Debug, PartialEq, Eq)]
pub enum Refusal<'a> {
    /// The words can't be read.
    Words(WordsFault),
    /// The file of this name can't be opened.
    CannotOpen(&'a str),
    /// A fault of the one input, or of the output.
    Input(Fault),
    /// A fault of one of the two inputs that are compared.
    OneSide(Side, Fault),
    /// A fault in reading the event text that an input is checked against.
    EventText(Fault),
    /// A fault of that text's lines.
    EventLines(EventFault),
}

impl Refusal<'_> {
    ghost use Rattle.std.specs.Prelude.{◌≡◌};
    ghost use Rattle.yaml_command.specs.Statuses.{refusal_status};

    /// The exit status: 2 where an input is refused, 3 where the words, a file or a stream can't be
    /// used.
    pub fn status(self) -> u8
        ensures { result ≡ refusal_status self.entry }
    {
        match self {
            Refusal::Words(_) | Refusal::CannotOpen(_) => UNUSABLE,
            Refusal::Input(fault) | Refusal::OneSide(_, fault) | Refusal::EventText(fault) => {
                status_of(fault)
            }
            Refusal::EventLines(_) => REFUSED,
        }
    }
}

fn status_of(fault: Fault) -> u8
    ensures { result ≡ fault_status fault }
{
    match fault {
        Fault::ReadFault | Fault::WriteFault => UNUSABLE,
        _ => REFUSED,
    }
}

impl From<WordsFault> for Refusal<'_> {
    ghost use Rattle.std.specs.Prelude.{◌≡◌};
    ghost use Rattle.yaml_command.specs.declared.refusal.Refusal.TheVariants.{Words};

    ghost from_gives = { λ fault refusal. refusal ≡ Words fault };

    fn from(fault: WordsFault) -> Self {
        Refusal::Words(fault)
    }
}

impl From<Fault> for Refusal<'_> {
    ghost use Rattle.std.specs.Prelude.{◌≡◌};
    ghost use Rattle.yaml_command.specs.declared.refusal.Refusal.TheVariants.{Input};

    ghost from_gives = { λ fault refusal. refusal ≡ Input fault };

    fn from(fault: Fault) -> Self {
        Refusal::Input(fault)
    }
}

impl From<(Side, Fault)> for Refusal<'_> {
    ghost use Rattle.std.specs.Prelude.{◌≡◌};
    ghost use Rattle.yaml_command.specs.declared.refusal.Refusal.TheVariants.{OneSide};

    ghost from_gives = { λ told refusal. refusal ≡ OneSide told.0 told.1 };

    fn from((side, fault): (Side, Fault)) -> Self {
        Refusal::OneSide(side, fault)
    }
}

impl From<EventFault> for Refusal<'_> {
    ghost use Rattle.std.specs.Prelude.{◌≡◌};
    ghost use Rattle.yaml_command.specs.declared.refusal.Refusal.TheVariants.{EventLines};

    ghost from_gives = { λ fault refusal. refusal ≡ EventLines fault };

    fn from(fault: EventFault) -> Self {
        Refusal::EventLines(fault)
    }
}
