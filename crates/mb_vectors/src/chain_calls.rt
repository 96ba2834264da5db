//! A chain, call by call.

ghost use Rattle.mb_carrier.specs.Word.{AreSpecs};

use mb_carrier::Spec;
use mb_chain::{Chain, ChainFault};
use mb_outside::MemoryOut;

const SPECS: &[Spec] = &[Spec::Din, Spec::Usb(3), Spec::Din];

#[test]
fn a_chain_hands_on_what_it_makes_of_each_piece(rt: HostRuntime) {
    let mut out = MemoryOut::new(rt.alloc(), 64).expect(&rt, "memory");
    let Ok(mut chain) = Chain::open(rt.alloc(), SPECS) else {
        panic!(rt; "three specs");
    };
    chain
        .feed(&[0xf0, 0x01, 0xf8], &mut out)
        .expect(&rt, "room");
    assert!(rt;
        out.bytes() == [0xf8].as_slice(),
        "a clock passes what waits for its packet"
    );
    assert!(rt;
        chain.crossed(0) == 3 && chain.crossed(1) == 4 && chain.crossed(2) == 1,
        "so far"
    );
    assert!(rt; !chain.partial(), "a byte line is never partial");
    chain.finish(&mut out).expect(&rt, "room");
    assert!(rt;
        out.bytes() == [0xf8, 0xf0, 0x01].as_slice(),
        "a dump that is broken off"
    );
    assert!(rt;
        chain.crossed(0) == 3 && chain.crossed(1) == 12 && chain.crossed(2) == 3,
        "all"
    );
    assert!(rt; !chain.broken(), "nothing was refused");
}

#[test]
fn a_chain_that_is_refused_is_broken(rt: HostRuntime) {
    let mut out = MemoryOut::new(rt.alloc(), 2).expect(&rt, "memory");
    let Ok(mut chain) = Chain::open(rt.alloc(), SPECS) else {
        panic!(rt; "three specs");
    };
    assert!(rt;
        chain.feed(&[0x90, 0x3c, 0x64], &mut out).is_err(),
        "three bytes in room for two"
    );
    assert!(rt; chain.broken(), "it was refused");
    assert!(rt; out.bytes() == [0x90, 0x3c].as_slice(), "a front was taken");
}

fn is_few(rt: &HostRuntime, specs: &[Spec]) -> bool
    requires { AreSpecs specs.now }
{
    match Chain::open(rt.alloc(), specs) {
        Err(ChainFault::TooFew) => true,
        _ => false,
    }
}

fn is_many(rt: &HostRuntime, specs: &[Spec]) -> bool
    requires { AreSpecs specs.now }
{
    match Chain::open(rt.alloc(), specs) {
        Err(ChainFault::TooMany) => true,
        _ => false,
    }
}

#[test]
fn a_chain_has_two_to_ten_specs(rt: HostRuntime) {
    assert!(rt;
        is_few(&rt, &[]) && is_few(&rt, &[Spec::Din]),
        "fewer than two"
    );
    assert!(rt;
        !is_few(&rt, &[Spec::Din; 2]) && !is_many(&rt, &[Spec::Din; 10]),
        "two and ten"
    );
    assert!(rt; is_many(&rt, &[Spec::Din; 11]), "more than ten");
}
