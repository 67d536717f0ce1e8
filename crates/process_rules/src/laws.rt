//! Laws of the lines: each function has a law as its contract, and does nothing.

ghost use Rattle.std.specs.Prelude.{◌≡◌, ◌≤◌, ℕ, IfOk, List, ◌∷◌, Ok, Some, codes, length, [], ◌++◌, false, true, Option, Result, Err};
ghost use Rattle.texts.specs.Words.{words_in, line_feed};
ghost use Rattle.hash_ring.specs.declared.hashing.Hashing.{Hashing};
ghost use Rattle.directory_rules.specs.State.{Letter};
ghost use Rattle.process_rules.specs.LetterText.{letter_line, letter_words};
ghost use Rattle.process_rules.specs.ReadLetter.{read_letter};
ghost use Rattle.process_rules.specs.ReadLine.{Asked, Receive, longest_line, read_silo_line};
ghost use Rattle.process_rules.specs.InRange.{IsInRange};
ghost use Rattle.process_rules.specs.Told.{IsSayable, IsTold};
ghost use Rattle.texts.specs.Printed.{text_of_lines};
ghost use Rattle.silo_address.specs.Silo.{Silo};
ghost use Rattle.directory_rules.specs.Settings.{Settings};
ghost use Rattle.silo_rules.specs.SiloValue.{SiloValue, told_of_its_join};
ghost use Rattle.silo_rules.specs.Whole.{IsWhole};
ghost use Rattle.process_rules.specs.Answer.{answered, answered_as};
ghost use Rattle.process_rules.specs.OutputLaws.{Begins, CarriesItsJoin};
ghost use Rattle.process_rules.specs.Output.{after_line, answered_to, fault_line, said, written, written_on};

/// A letter that a line can tell is read of its words, no words but a letter's own are read as that letter, and no letter is read but
/// one that a line can tell.
pub fn letters_are_read_again()
    ensures again { (hashing : Hashing) (letter : Letter) → IsTold hashing letter → read_letter hashing (letter_words letter) ≡ Ok letter }
    ensures only { (hashing : Hashing) (words : List (List ℕ)) (letter : Letter) → read_letter hashing words ≡ Ok letter → words ≡ letter_words letter }
    ensures told { (hashing : Hashing) (words : List (List ℕ)) (letter : Letter) → read_letter hashing words ≡ Ok letter → IsTold hashing letter }
{}

/// The line of such a letter is cut into `letter` and its words.
pub fn lines_of_letters()
    ensures { (hashing : Hashing) (letter : Letter) → IsTold hashing letter → words_in (letter_line letter) ≡ codes "letter" ∷ letter_words letter }
{}

/// The line of such a letter says that letter, where it isn't too long to be read.
pub fn lines_say_their_letters()
    ensures { (hashing : Hashing) (letter : Letter) → IsTold hashing letter → length (letter_line letter) ≤ longest_line → read_silo_line hashing (letter_line letter) ≡ Ok (Some (Receive letter)) }
{}

/// The line of a letter that a silo may send is read as that letter, or it is refused: its numbers may be too large, or it may be too long.
pub fn lines_say_no_other_letters()
    ensures { (hashing : Hashing) (letter : Letter) → IsSayable hashing letter → IfOk (read_silo_line hashing (letter_line letter)) (λ asked. asked ≡ Some (Receive letter)) }
{}

/// What a line asks for is in its range.
pub fn lines_are_in_range()
    ensures { (hashing : Hashing) (line : List ℕ) (asked : Asked) → read_silo_line hashing line ≡ Ok (Some asked) → IsInRange hashing asked }
{}

/// What is written on the lines that were read so far is a beginning of what is written on all of the input.
pub fn beginnings_begin()
    ensures { (settings : Settings) (silo : Silo) (token : Option (List ℕ)) (front more : List ℕ) → Begins (written settings silo token (front ++ line_feed ∷ [])) (written settings silo token (front ++ line_feed ∷ more)) }
{}

/// A faulty line tells its fault and changes nothing: the lines behind it are answered as if it weren't there.
pub fn faults_change_nothing()
    ensures { (token : Option (List ℕ)) (line next : List ℕ) (lines : List (List ℕ)) (s : SiloValue) (fault : ℕ) → said line s ≡ Err fault
        → written_on token (line ∷ next ∷ lines) s ≡ text_of_lines (fault_line fault ∷ []) ++ written_on token (next ∷ lines) s }
{}

/// Behind the line by which the process ends nothing is read.
pub fn ends_are_final()
    ensures { (token : Option (List ℕ)) (line next : List ℕ) (lines : List (List ℕ)) (s : SiloValue) → (answered_to token (said line s) s).ends ≡ true
        → written_on token (line ∷ next ∷ lines) s ≡ text_of_lines (answered_to token (said line s) s).lines }
{}

/// A letter's line is answered as that letter, where a line can tell it and isn't too long to be read.
pub fn letters_are_received()
    ensures { (token : Option (List ℕ)) (letter : Letter) (next : List ℕ) (lines : List (List ℕ)) (s : SiloValue) → IsTold s.node.settings.hashing letter → length (letter_line letter) ≤ longest_line
        → written_on token (letter_line letter ∷ next ∷ lines) s ≡ after_line (answered (Receive letter) s) (written_on token (next ∷ lines)) }
{}

/// Whatever a line says, the silo after it is whole, as it was before: its node's ring is that of the view that it has seen, by what it
/// was told.
pub fn silos_stay_whole()
    ensures { (token : Option (List ℕ)) (read : Result (Option Asked) ℕ) (s : SiloValue) → IsWhole s → IsWhole (answered_to token read s).silo }
{}

/// A process that was started with a token is told of its silo's join by a line that carries it, and by no other.
pub fn joins_by_its_token()
    ensures { (token : List ℕ) (asked : Asked) (s : SiloValue) → IsWhole s → told_of_its_join s ≡ false → told_of_its_join (answered_as (Some token) asked s).silo ≡ true
        → CarriesItsJoin s.node.host.silo token asked }
{}
