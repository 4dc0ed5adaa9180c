// A translation's info word, held as it was given, with no unnamed bit set.
ghost use Rattle.std.specs.Prelude.{◌≡◌};
ghost use Rattle.tlb.specs.Word.{unnamed};

mod fields;

#[derive(Clone, Copy, PartialEq, Eq, Debug)]
pub struct Info {
    word: u32,
    ghost named: { unnamed word ≡ 0 },
}
