use imm_base::{
    Dup, Failed, Fault, FreeGate, Gate, HashEq, MapFault, MemSink, MemSource, Memory, Order,
    Ordinal, Pair, PureSink, PureSource, Refused, SetFault, Sink, Source, StdSink, StdSource, Test,
    Text24, Tokens, Val, ValEq, ValOrder, ValTest, laws,
};
use std::alloc::Global;
use std::cmp::Ordering;
use std::io;
use std::io::{ErrorKind, Read, Write};
use std::process::Abort;
use std::test::Fail;

// The text of these bytes. An integer stands for bytes that are none.
fn text(bytes: &[u8]) -> Val {
    Text24::from_bytes(bytes).map_or(Val::Int(0), Val::Text)
}

#[test]
fn short_texts_are_checked(rt: HostRuntime) {
    for (bytes, is_text) in [
        (b"".as_slice(), true),
        (b"abcdefghijklmnopqrstuvwx", true),
        (b"abcdefghijklmnopqrstuvwxy", false),
        (b" ~", true),
        (b"a\"b", false),
        (b"a\\b", false),
        (b"\x1f", false),
        (b"\x7f", false),
    ] {
        match Text24::from_bytes(bytes) {
            Some(text) => {
                assert!(rt; is_text);
                assert_eq!(rt; text.as_bytes(), bytes);
            }
            None => assert!(rt; !is_text),
        }
    }
}

#[test]
fn sources_fail_where_they_are_told(rt: HostRuntime) -> Result<(), Fail> {
    let bytes = vec![in rt.alloc(); b'a', b'b', b'c']?;
    let failing = vec![in rt.alloc(); 2u64]?;
    let mut source = MemSource::new(bytes, failing);
    let mut buffer = [0; 2];
    for (read, want) in [(1, Ok(2)), (2, Err(Failed)), (3, Ok(1)), (4, Ok(0))] {
        assert_eq!(rt; source.read(&mut buffer), want, "read {read}");
    }
    Ok(())
}

#[test]
fn pure_sources_give_all(rt: HostRuntime) -> Result<(), Fail> {
    let bytes = vec![in rt.alloc(); b'a', b'b', b'c']?;
    let mut source = PureSource::new(bytes);
    let mut buffer = [0; 2];
    for want in [Ok(2), Ok(1), Ok(0)] {
        assert_eq!(rt; source.read(&mut buffer), want);
    }
    Ok(())
}

#[test]
fn sinks_take_what_there_is_room_for(rt: HostRuntime) -> Result<(), Fail> {
    let failing = vec![in rt.alloc(); 2u64]?;
    let mut sink = MemSink::new(rt.alloc(), failing, Some(5));
    assert_eq!(rt; sink.write(b"abc"), Ok(0), "nothing is reserved");
    sink.reserve(100)?;
    for (piece, want) in [
        (b"abc".as_slice(), Err(Failed)),
        (b"abc", Ok(3)),
        (b"", Ok(0)),
        (b"def", Ok(2)),
        (b"f", Err(Failed)),
        (b"", Err(Failed)),
    ] {
        assert_eq!(rt; sink.write(piece), want);
    }
    assert_eq!(rt; sink.bytes(), b"abcde".as_slice());
    Ok(())
}

#[test]
fn pure_sinks_take_what_there_is_room_for(rt: HostRuntime) -> Result<(), Fail> {
    let mut sink = PureSink::new(rt.alloc());
    assert_eq!(rt; sink.write(b"abc"), Ok(0), "there is no room");
    sink.reserve(100)?;
    assert_eq!(rt; sink.write(b"abc"), Ok(3));
    assert_eq!(rt; sink.bytes(), b"abc".as_slice());
    Ok(())
}

#[derive(Drop)]
struct Broken;

impl Read for Broken {
    fn read(&mut self, _buf: &mut [u8]) -> io::Result<usize> {
        Err(io::Error::from(ErrorKind::BrokenPipe))
    }
}

impl Write for Broken {
    fn write(&mut self, _buf: &[u8]) -> io::Result<usize> {
        Err(io::Error::from(ErrorKind::BrokenPipe))
    }

    fn flush(&mut self) -> io::Result<()> {
        Ok(())
    }
}

#[test]
fn streams_of_the_system_are_a_source_and_a_sink(rt: HostRuntime) {
    let mut buffer = [0; 2];
    assert_eq!(rt; StdSource::new(b"abc".as_slice()).read(&mut buffer), Ok(2));
    assert_eq!(rt; StdSource::new(Broken).read(&mut buffer), Err(Failed));
    assert_eq!(rt; StdSink::new(Broken).write(b"abc"), Err(Failed));
    assert_eq!(rt; StdSink::new(buffer.as_mut_slice()).write(b"abc"), Ok(2));
}

fn assert_ordered(rt: &impl Abort, a: &Val, b: &Val, ordinal: Ordering, no_case: Ordering) {
    assert!(rt; ValOrder::Ordinal.compare(a, b) == ordinal);
    assert!(rt; Ordinal.compare(a, b) == ordinal);
    assert!(rt; ValOrder::Reverse.compare(b, a) == ordinal);
    assert!(rt; ValOrder::NoCase.compare(a, b) == no_case);
    assert!(rt; ValEq::Ordinal.same(a, b) == ordinal.is_eq());
    assert!(rt; ValEq::One.same(a, b) == ordinal.is_eq());
    assert!(rt; ValEq::NoCase.same(a, b) == no_case.is_eq());
}

fn test_results(a: &Val, b: &Val) -> (bool, bool, bool) {
    let is = ValTest::Is(*b).holds(a);
    let below = ValTest::Below(*b).holds(a);
    let above = ValTest::Above(*b).holds(a);
    (is, below, above)
}

#[test]
fn values_have_their_orders_and_equalities(rt: HostRuntime) {
    for (a, b, ordinal, no_case) in [
        (Val::Int(-1), Val::Int(2), Ordering::Less, Ordering::Less),
        (
            Val::Int(i64::MAX),
            text(b""),
            Ordering::Less,
            Ordering::Less,
        ),
        (text(b"a"), text(b"ab"), Ordering::Less, Ordering::Less),
        (
            text(b"b"),
            text(b"ab"),
            Ordering::Greater,
            Ordering::Greater,
        ),
        (text(b"a"), text(b"A"), Ordering::Greater, Ordering::Equal),
        (text(b"Z"), text(b"a"), Ordering::Less, Ordering::Greater),
        (text(b"a"), text(b"a"), Ordering::Equal, Ordering::Equal),
    ] {
        assert_ordered(&rt, &a, &b, ordinal, no_case);
        let want = (ordinal.is_eq(), ordinal.is_lt(), ordinal.is_gt());
        assert!(rt; test_results(&a, &b) == want);
    }
}

#[test]
fn values_have_their_hashes(rt: HostRuntime) {
    for (value, ordinal, no_case) in [
        (text(b""), -2_128_831_035, -2_128_831_035),
        (Val::Int(-2), 1, 1),
        (Val::Int(1), 1, 1),
        (text(b"a"), -468_965_076, -468_965_076),
        (text(b"foobar"), -1_080_231_576, -1_080_231_576),
    ] {
        assert_eq!(rt; ValEq::Ordinal.hash(&value), ordinal);
        assert_eq!(rt; ValEq::NoCase.hash(&value), no_case);
        assert_eq!(rt; ValEq::One.hash(&value), 0);
    }
}

struct NoTokens;

impl Tokens for NoTokens {
    fn last_ordinal(&self, _cell: u32) -> Option<u64> {
        None
    }

    fn ticket(&self, _cell: u32) -> Option<u64> {
        None
    }
}

fn refused(alloc: Global, value: &Val) -> Result<Val, SetFault> {
    Ok(value.dup(alloc)?)
}

#[test]
fn copies_and_gates(rt: HostRuntime) -> Result<(), Fail> {
    let pair = Pair {
        key: Val::Int(1),
        value: Val::Int(2),
    };
    assert!(rt; pair.dup(rt.alloc())? == pair);
    assert!(rt; refused(rt.alloc(), &pair.key)? == pair.key);
    FreeGate.before(1, 1);
    FreeGate.after(1, 1, &NoTokens);
    Ok(())
}

fn set_refusal(fault: SetFault) -> Option<Refused<Val>> {
    fault.refused()
}

#[test]
fn faults_tell_their_refusals(rt: HostRuntime) {
    let too_large = Refused::TooLarge { count: 3 };
    assert!(rt; set_refusal(SetFault::TooLarge { count: 3 }) == Some(too_large));
    assert!(rt; set_refusal(SetFault::Memory).is_none());
    let fault = MapFault::KeyExists { old: Val::Int(1) };
    let present = Some(Refused::KeyExists { old: Val::Int(1) });
    assert!(rt; fault.refused() == present);
}

#[test]
fn laws_can_be_called(rt: HostRuntime) {
    let value = Val::Int(1);
    let pair = Pair { key: value, value };
    assert!(rt; laws::pairs_are_ordered_by_key(&pair, &pair).is_eq());
    laws::equal_is_same(&ValEq::One, &value, &value);
    laws::sets_can_be_kept(&value);
    laws::sets_stay_sets(&value);
    laws::maps_stay_maps(&value, &value);
    laws::lists_stay_short(&value);
    laws::sets_can_be_reordered(&value);
    laws::maps_can_be_reordered(&value, &value);
}
