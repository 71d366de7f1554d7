//! The texts that are the same in every run.

/// What is written if no subcommand has the arguments.
pub const USAGE: &[u8] =
    b"usage: nooks run | run threads | asm | dis | gen N | audit | campaign | mirror\n";

/// What `--help` writes: a line for each subcommand, and one for each status.
pub const HELP: &[u8] = b"\
nooks run             read a scenario, simulate it, write the report\n\
nooks run threads     the same, each thread of the scenario as a thread of its own\n\
nooks asm             read a driver as assembler text, write its image as JSON\n\
nooks dis             read an image as JSON, write assembler text\n\
nooks list            read a driver as assembler text, write its words with their addresses and source lines\n\
nooks gen N           simulate generated scenario N (1 to 256), write the line that sums it up\n\
nooks gen N scenario  write generated scenario N as JSON\n\
nooks audit           read a scenario and a printed report, check the report line by line\n\
nooks campaign        read a scenario and a list of faults, simulate it once for each, write the table\n\
nooks mirror          read a scenario of two disks, keep one disk on both, write the report\n\
nooks trace P B       read a scenario, write what burst B of part P did, turn by turn (P from 0)\n\
nooks guard           read a scenario, stop each driver before it breaks its contract, write traps and report\n\
nooks guard scenario  read a scenario, write it as JSON with the traps of its guard\n\
nooks explore         read a scenario, follow every order of its steps, write a row for each outcome\n\
nooks --help          write this\n\
nooks --version       write the program's version, and the kit that it is proved with\n\
status 0              done; no part was given up\n\
status 1              a part was given up; for mirror: neither disk was left\n\
status 2              the words are of no form; nothing was read\n\
status 3              the input was refused; the line written says why and where\n\
status 4              reading failed; nothing was written\n\
status 5              writing failed; a front of the output was written\n\
status 6              memory was wanting; a front of the output was written, or nothing\n\
status 7              a driver broke its class's contract\n\
status 8              a line of the report does not fit the scenario\n\
status 9              not every order was followed: too many states\n";

/// What is written for an input of `audit` that does not begin with a length, or has fewer bytes.
pub const BAD_HEADER: &[u8] = b"fault 12 bad_header /\n";

/// What is written for a scenario that a mirror does not serve.
pub const NOT_MIRROR: &[u8] = b"fault 13 not_mirror /\n";

/// What is written for a scenario whose run has no such part or burst.
pub const NO_SUCH_BURST: &[u8] = b"fault 14 no_such_burst /\n";

/// What is written for a report whose lines all fit.
pub const AUDIT_YES: &[u8] = b"audit yes\n";

/// What `--version` writes: the program's name and version, and the kit that it is proved with.
pub const VERSION: &[u8] = b"nooks 0.11.0, proved with rattle-kit-13f logic dac8208d650f15bf\n";
