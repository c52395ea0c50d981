// The texts of `--help` and `--version`.
ghost use Rattle.std.specs.Prelude.{◌≡◌, map, string_bytes};
ghost use Rattle.std.specs.Option.{option_copied};
ghost use Rattle.mdb_tool.specs.AskedTexts.{asked, word_asked};

/// What `mdb --help` prints.
pub(crate) const HELP: &str = "mdb: an authenticated map, which one root of 32 bytes vouches for

usage: mdb FOLDER COMMAND FACTOR ARGUMENTS..
       mdb --help
       mdb --version

Messages call arguments words, and count them from 1: word 1 is FOLDER, word 2 COMMAND.

FOLDER is the folder of a store, which has to be there, or - where the command uses none.
FACTOR is 2, 4, 16 or 256, the most children that a node of the trie may have.
KEY, VALUE and PROOF are hexadecimal digits, or - for no bytes.
START and END are keys, the first and the last of a range, or * where it is open.
ROOT is 64 hexadecimal digits, now for the store as it is, ~K for the map K commits back in the same
script, or empty; FROM and TO are such roots.
PAIRS is the most pairs that a proof may list, BYTES the most bytes of them; it lists one at least.

commands:
  root FACTOR      reads lines from standard input and prints the root of the map that they make
                   lines: put KEY VALUE    del KEY    # a comment
  apply FACTOR     does the lines of standard input on the store in FOLDER, a new one where there is
                   none, and prints what each tells; a line that can't be done prints: refused WHY
                   lines: put KEY VALUE     the value is pending
                          del KEY           a deletion is pending
                          commit            commits what is pending          commit N ROOT
                          view PLACE        makes a view of it on PLACE      view N ROOT
                          take N            commits the view N               taken N ROOT
                          close N           gives the view N up              closed N
                          state N           tells how the view N stands      state N STATE
                          get PLACE KEY     tells what is at KEY             value VALUE, or none
                          root PLACE        tells the root                   root ROOT
                          prove ROOT KEY    proves what is at KEY            proof PROOF
                          range ROOT START END PAIRS BYTES
                                            proves what is in a range        range PROOF
                          changes FROM TO START END PAIRS BYTES
                                            proves what changed there        changes PROOF
                          # a comment
                   what is pending at the end is committed too; PLACE is db, the store, or a view's N
  get FACTOR KEY   prints the value of KEY in the store: value VALUE, or none
  prove FACTOR ROOT KEY
                   prints the proof of what the map with that root has at KEY: proof PROOF
  range FACTOR ROOT START END PAIRS BYTES
                   prints the proof of what the map with that root has from START to END, or up to
                   the last pair that it lists: range PROOF
  changes FACTOR FROM TO START END PAIRS BYTES
                   prints the proof of what changed in that range from the one map to the other: changes PROOF
  verify FACTOR    checks the proofs of standard input, each against the root that stands in its line,
                   and prints ok and how many pairs or changes a proof shows; it opens the store for
                   changes alone, which are checked against the map there, and leaves that as it is
                   lines: point ROOT KEY PROOF             range ROOT START END PROOF
                          changes ROOT START END PROOF     # a comment
                   ROOT is 64 digits here, or empty; at a proof that is refused it ends

The fields of a line are parted by spaces and tabs. Where standard input is a terminal, Ctrl-D at
the beginning of a line ends the lines.

examples:
  echo 'put 6b 76' | mdb - root 16
  mkdir D; echo 'put 6b 76' | mdb D apply 16
  mdb D get 16 6b
  mdb D prove 16 now 6b
  mdb D range 16 now '*' '*' 4096 2097152
  printf 'put 6b 77\\ncommit\\nchanges ~1 now * * 10 1000\\n' | mdb D apply 16
  root=$(echo 'put 6b 76' | mdb - root 16); proof=$(mdb D prove 16 now 6b)
  echo \"point ${root#root } 6b ${proof#proof }\" | mdb - verify 16

exit status; where it is not 0, a line on standard error tells why:
   0  the work is finished
   1  the launcher could not build the program
   2  an argument is not understood
   3  a line of the input is not understood
   4  the files of FOLDER are no store, or one of another factor, or damaged
   5  verify: a proof is refused
   6  prove, range, changes: the store does not hold a map that is named
  10  a limit is met
  20  the input could not be read
  21  the output could not be written
  22  the disk failed: look whether FOLDER is there, whether you may write in it, and whether there
      is room
  30  there was no memory

limits:
  a key has at most 256 bytes, a bound of a range 257, a value 262144, a line 20000000,
  an input 1073741824, a commit 33554432; PAIRS is at most 4096, BYTES 2097152;
  a store has at most 1000000 pairs, and a run makes at most 1000000 commits and views
";

/// What `mdb --version` prints.
pub(crate) const VERSION: &str = "mdb 0.1.0\n";

/// The text that the words ask for: a single word may ask for one.
pub(crate) fn asked_text(words: &[String]) -> Option<&'static str>
    ensures { option_copied result ≡ asked HELP.now VERSION.now (map string_bytes words.now) }
{
    match words {
        [word] => text_of_word(word.as_str()),
        _ => None,
    }
}

fn text_of_word(word: &str) -> Option<&'static str>
    ensures { option_copied result ≡ word_asked HELP.now VERSION.now word.now }
{
    match word {
        "--help" => Some(HELP),
        "--version" => Some(VERSION),
        _ => None,
    }
}
