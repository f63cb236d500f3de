//! What streams of bytes spell: laws of the definitions, on functions that do nothing.
ghost use Rattle.sp_base.specs.Texts.{Text};
ghost use Rattle.stream_laws.specs.Streams.{SpellsNone};

/// Each stream of bytes spells some turns and an end (RFC 9112, section 2.2): whichever bytes come, there is a way to read them. It is said of
/// none that it spells none, since no function of the definitions looks for a head.
pub fn no_stream_is_without_turns()
    ensures { (stream : Text) → SpellsNone stream → ⊥ }
{}
