//! Texts in quotes of a farm's file.
ghost use Rattle.std.specs.Prelude.{◌≡◌, drop};
ghost use Rattle.std.specs.List.{position};
ghost use Rattle.sp_base.specs.Bytes.{begins_with_byte};
ghost use Rattle.any_config.specs.Tokens as spec;
ghost use Rattle.any_config.specs.Tokens.{run_len};
ghost use Rattle.any_config.specs.declared.tokens.ByteRun.TheVariants.{Quoted};

use sp_base::begins_with_byte;

// The first byte that ends a text in quotes, which this mark opened: such a mark, or the end of the line.
fn first_end(mark: u8, inside: &[u8]) -> Option<usize>
    ensures { result ≡ position (spec.ends (Quoted mark)) inside.now }
{
    inside
        .iter()
        .position(|byte| *byte == mark || (*byte == b'\n' || *byte == b'\r'))
}

/// Whether quotes that this mark opened are closed on their line.
#[tactic(auto, unfolding(any_config::specs::Tokens::run_len))]
pub fn are_closed(mark: u8, inside: &[u8]) -> bool
    ensures { result ≡ begins_with_byte mark (drop (run_len (Quoted mark) inside.now) inside.now) }
{
    let end = match first_end(mark, inside) {
        Some(at) => at,
        None => inside.len(),
    };
    begins_with_byte(mark, inside.split_at(end).1)
}
