//! Laws of the definitions: functions that do nothing.
ghost use Rattle.std.specs.Prelude.{◌≡◌, ◌++◌, ℕ, Bool, List};
ghost use Rattle.http_front.specs.Answers.{answer_bytes, answer_content, answer_head};
ghost use Rattle.http_front.specs.declared.fault.InFault.TheVariants.{BadHead};
ghost use Rattle.http_front.specs.declared.turn.Turn.{Turn};
ghost use Rattle.http_front.specs.FieldValues.{ValuesStayInTheirLines};
ghost use Rattle.http_front.specs.OpenEnds.{BeginsWithTurns, EndsInSpoiltTarget, LeavesEndOpen, SpoiltTargetsEndSo, EndsAlikeOrOpenIfSpelt, MayWaitIfShort, MayBreakIfLong, AreFirstOf};
ghost use Rattle.http_front.specs.Turns.{Breaks, End, SpellsTurns};
ghost use Rattle.sp_base.specs.Texts.{Text};
ghost use Rattle.sp_base.specs.declared.answer.Answer.{Answer};

/// The turns of the beginning of a stream are the beginning of its turns, however the stream goes on.
pub fn the_turns_of_a_beginning()
    ensures { (stream more : Text) (turns all : List Turn) (a b : End) → SpellsTurns stream turns a → SpellsTurns (stream ++ more) all b → AreFirstOf turns all }
{}

/// A stream with these turns ends in one way (`one`), but where what comes after them, or the first 16,384 bytes of it, ends within a
/// target that isn't UTF-8 and can't become it. There it has a bad head (`bad`), and where fewer than 16,384 bytes come after the turns
/// it waits (`waits`), where as many or more do it has a long head (`long`): these are all its ends (`only`).
pub fn the_end_of_a_stream()
    ensures one { (stream : List ℕ) (turns : List Turn) (end last : End) → SpellsTurns stream turns end → EndsAlikeOrOpenIfSpelt stream turns end last }
    ensures bad { (stream : List ℕ) (turns : List Turn) → LeavesEndOpen stream turns → SpellsTurns stream turns (Breaks BadHead) }
    ensures waits { (stream last : List ℕ) (turns : List Turn) → BeginsWithTurns stream turns last → EndsInSpoiltTarget last → MayWaitIfShort stream turns last }
    ensures long { (stream last : List ℕ) (turns : List Turn) → BeginsWithTurns stream turns last → EndsInSpoiltTarget last → MayBreakIfLong stream turns last }
    ensures only { SpoiltTargetsEndSo }
{}

/// Whatever an answer says whose body has fewer than 2^64 bytes, no value of a field ends its line (RFC 9110, section 5.5), and each byte
/// of a location is visible.
pub fn no_value_ends_its_line()
    ensures { ValuesStayInTheirLines }
{}

/// The bytes of an answer are its head, and its content behind it.
pub fn an_answer_is_its_head_and_its_content()
    ensures { (head_only close : Bool) (answer : Answer) → answer_bytes head_only close answer ≡ answer_head head_only close answer ++ answer_content head_only answer }
{}
