//! What the program tells of itself.

ghost use Rattle.std.specs.Prelude.{◌≡◌};
ghost use Rattle.sp_tool.specs.Help.{help_text, version_text};

/// How each command is called, what the statuses mean, and where the pages are.
const HELP: &str = "perseus 0.1.0
Plans for factored POMDPs by Symbolic Perseus.

Commands, each with what it does and an example:
perseus plan MODEL --beliefs N --depth D --stages N --seed S --workers N
        [--prune] [--explore uniform|sweep] [--sessions SCRIPT]
  Plans for a model file and writes the plan file.
    perseus plan tiger.txt --beliefs 9 --depth 8 --stages 3 --seed 2 --workers 0
perseus check MODEL
  Checks a model file and writes its sizes.
    perseus check tiger.txt
perseus show MODEL
  Writes the canonical text of a model file.
    perseus show tiger.txt
perseus gen NUMBER
  Writes the generated model of that number, 0 to 16.
    perseus gen 3
perseus trial NUMBER
  Plans for that model and writes a summary.
    perseus trial 3
perseus audit PLAN
  Says whether a plan file is legal, or what is wrong with it first.
    perseus audit tiger.plan
perseus migrate PLAN
  Rewrites a plan file of version 1 or 2 in version 2.
    perseus migrate tiger.plan
perseus act PLAN SCRIPT
  Serves a script of acting sessions on the last edition of a plan file.
    perseus act tiger.plan sessions.txt
perseus --help, -h, help
  Writes this text.
    perseus --help
perseus --version, -V
  Writes the version of the program.
    perseus --version

Exit statuses (if not 0, one line on standard error says why):
  0  done: the text was written to standard output
  1  refused: a model file, plan file or script is not accepted
  2  usage: the words are not those of a command
  3  out of memory
  4  a file could not be read
  5  standard output could not be written
  6  not legal: the plan file is well formed, but something in it is wrong

Pages:
  docs/COMMANDS.md    commands, ranges of their numbers, statuses
  docs/MODEL_FILE.md  model files
  docs/PLAN_FILE.md   plan files
  docs/SESSIONS.md    sessions and their scripts
";

/// The program and its version.
const VERSION: &str = "perseus 0.1.0\n";

/// How the program is called.
pub fn help() -> &'static [u8]
    ensures { result.now ≡ help_text }
{
    HELP.as_bytes()
}

/// The program's version.
pub fn version() -> &'static [u8]
    ensures { result.now ≡ version_text }
{
    VERSION.as_bytes()
}
