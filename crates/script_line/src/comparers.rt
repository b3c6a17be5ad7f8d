//! Words that stand for comparers and tests.

ghost use Rattle.std.specs.Prelude.{◌≡◌};
ghost use Rattle.script_line.specs.Comparers.{order, equality, test_word, test_of, comparer};

use crate::codes::Code;
use crate::table::entry;
use imm_base::{Val, ValEq, ValOrder, ValTest};
use plain_model::Comparer;

const ORDERS: [(&[u8], ValOrder); 3] = [
    (b"ordinal", ValOrder::Ordinal),
    (b"reverse", ValOrder::Reverse),
    (b"nocase", ValOrder::NoCase),
];

pub(crate) fn order(word: &[u8]) -> Result<ValOrder, Code>
    ensures { result ≡ order word.now }
{
    entry(&ORDERS, word)
}

const EQUALITIES: [(&[u8], ValEq); 3] = [
    (b"ordinal", ValEq::Ordinal),
    (b"nocase", ValEq::NoCase),
    (b"one", ValEq::One),
];

pub(crate) fn equality(word: &[u8]) -> Result<ValEq, Code>
    ensures { result ≡ equality word.now }
{
    entry(&EQUALITIES, word)
}

const COMPARERS: [(&[u8], Comparer); 4] = [
    (b"ordinal", Comparer::Ordinal),
    (b"reverse", Comparer::Reverse),
    (b"nocase", Comparer::NoCase),
    (b"one", Comparer::One),
];

#[tactic(auto, unfolding(crate::specs::Comparers::comparer))]
pub(crate) fn comparer(word: &[u8]) -> Result<Comparer, Code>
    ensures { result ≡ comparer word.now }
{
    entry(&COMPARERS, word)
}

/// The word of a test.
#[derive(Clone, Copy)]
pub(crate) enum TestWord {
    Is,
    Below,
    Above,
}

const TESTS: [(&[u8], TestWord); 3] = [
    (b"is", TestWord::Is),
    (b"below", TestWord::Below),
    (b"above", TestWord::Above),
];

pub(crate) fn test_word(word: &[u8]) -> Result<TestWord, Code>
    ensures { result ≡ test_word word.now }
{
    entry(&TESTS, word)
}

pub(crate) fn test_of(word: TestWord, value: Val) -> ValTest
    ensures { result ≡ test_of word value }
{
    match word {
        TestWord::Is => ValTest::Is(value),
        TestWord::Below => ValTest::Below(value),
        TestWord::Above => ValTest::Above(value),
    }
}
