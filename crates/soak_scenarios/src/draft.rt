//! A text that is written, with numbers that are drawn.
ghost use Rattle.std.specs.Prelude.{◌≡◌, ◌<◌, OnOk};
ghost use Rattle.std.specs.Fmt.{decimal};
ghost use Rattle.soak_scenarios.specs.Drafts.{begun_draft, drawn, given, seed_after, with_draw, with_text};

use sp_base::Mem;
use std::alloc::Global;
use std::marker::Model;

/// A text so far, and the seed after its draws.
#[derive(Drop)]
pub struct ScenarioDraft {
    text: Vec<u8>,
    seed: u64,
}

impl Model for ScenarioDraft {
    ghost use Rattle.soak_scenarios.specs.Drafts as spec;

    ghost Value = { spec.ScenarioDraft };

    ghost view = { λ draft. record { text = draft.text.items; seed = draft.seed } };
}

fn next(seed: u64) -> u64
    ensures { result ≡ seed_after seed }
{
    seed.wrapping_mul(6_364_136_223_846_793_005)
        .wrapping_add(1_442_695_040_888_963_407)
}

impl ScenarioDraft {
    pub fn new(alloc: Global, number: u32) -> ScenarioDraft
        ensures { result ≡ begun_draft number }
    {
        ScenarioDraft {
            text: Vec::new(alloc),
            seed: u64::from(number),
        }
    }

    /// A number below another that isn't 0.
    pub fn draw(&mut self, below: u64) -> u64
        requires { 0 < below }
        ensures after { self.new ≡ drawn self.old }
        ensures given { result ≡ given self.new below }
    {
        self.seed = next(self.seed);
        (self.seed / (1 << 33)) % below
    }

    pub fn push(&mut self, text: &[u8]) -> Mem<()>
        ensures { OnOk result (self.new ≡ with_text text.now self.old) }
    {
        self.text.extend_from_slice(text)?;
        Ok(())
    }

    pub fn push_number(&mut self, alloc: Global, n: u64) -> Mem<()>
        ensures { OnOk result (self.new ≡ with_text (decimal n) self.old) }
    {
        let text = n.to_string(alloc)?;
        self.push(text.as_bytes())
    }

    /// Draws a number, and writes it.
    pub fn push_draw(&mut self, alloc: Global, below: u64) -> Mem<()>
        requires { 0 < below }
        ensures { OnOk result (self.new ≡ with_draw below self.old) }
    {
        let n = self.draw(below);
        self.push_number(alloc, n)
    }

    pub fn into_text(self) -> Vec<u8>
        ensures { result.items ≡ self.text }
    {
        self.text
    }
}
