//! What the program writes to standard error.

ghost use Rattle.std.specs.Prelude.{◌≡◌, ◌⊎◌, IfSome, IsNone, IsSome};

use nooks::Status;

/// After the usage line: where the subcommands are listed.
pub const FORMS: &str = "`nooks --help` lists every form of words";

/// After the usage line, if an argument is the path of a file.
pub const STANDARD_INPUT: &str = "input comes from standard input: nooks run < FILE";

/// After the line of a refused input: what shows the position.
pub const EXPLAIN: &str =
    "`nooks-bench explain --input FILE`, given this line, shows the place in the input";

/// What went wrong outside the program, in a few words; `None` if nothing did, or if a line of its output says it.
pub fn message_of(status: Status) -> Option<&'static str>
    ensures said { result ≡ None
        → (status ≡ Status.ReadFault → ⊥) × (status ≡ Status.WriteFault → ⊥)
        × (status ≡ Status.NoMemory → ⊥) }
{
    match status {
        Status::ReadFault => Some("reading standard input failed; nothing was written"),
        Status::WriteFault => Some(
            "writing standard output failed; a front of the output was written",
        ),
        Status::NoMemory => Some(
            "memory was wanting; a front of the output was written, or nothing",
        ),
        Status::Done
        | Status::GivenUp
        | Status::ContractBroken
        | Status::AuditNo
        | Status::Cut
        | Status::Usage
        | Status::BadInput => None,
    }
}
