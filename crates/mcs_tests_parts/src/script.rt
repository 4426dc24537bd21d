use mcs_script::{ItemFault, RawItem, read_item, read_new_item};
use std::test::Fail;

#[test]
fn items_as_they_are_written(rt: HostRuntime) {
    let rows = [
        ("compute 5", RawItem::Compute(5)),
        ("compute 1", RawItem::Compute(1)),
        ("compute 1099511627776", RawItem::Compute(1_099_511_627_776)),
        ("  yield ", RawItem::Yield),
        ("signal n 1", RawItem::Signal("n", 1)),
        (
            "  signal   n    4294967295  ",
            RawItem::Signal("n", 4_294_967_295),
        ),
        ("signal 05 7", RawItem::Signal("05", 7)),
        ("wait n", RawItem::Wait("n")),
        ("wait \t", RawItem::Wait("\t")),
        ("wait é", RawItem::Wait("é")),
    ];
    for (text, want) in rows {
        assert_eq!(rt; read_item(text), Ok(want), "{text}");
    }
}

/// Each fault alone, and each combined with a later one.
#[test]
fn the_first_fault_of_an_item(rt: HostRuntime) {
    let rows = [
        ("", ItemFault::UnknownWord),
        ("   ", ItemFault::UnknownWord),
        ("sleep 1", ItemFault::UnknownWord),
        ("sleep", ItemFault::UnknownWord),
        ("sleep 0 1 2", ItemFault::UnknownWord),
        ("Compute 0", ItemFault::UnknownWord),
        ("compute5", ItemFault::UnknownWord),
        ("compute\t5", ItemFault::UnknownWord),
        ("\tyield", ItemFault::UnknownWord),
        ("yield\n", ItemFault::UnknownWord),
        ("compute", ItemFault::MissingPart),
        ("signal", ItemFault::MissingPart),
        ("signal n", ItemFault::MissingPart),
        ("signal 0", ItemFault::MissingPart),
        ("wait  ", ItemFault::MissingPart),
        ("compute 5 6", ItemFault::ExtraPart),
        ("compute 0 1", ItemFault::ExtraPart),
        ("signal n 0 x", ItemFault::ExtraPart),
        ("wait n m", ItemFault::ExtraPart),
        ("yield 0", ItemFault::ExtraPart),
        ("compute 0", ItemFault::BadNumber),
        ("compute 05", ItemFault::BadNumber),
        ("compute -1", ItemFault::BadNumber),
        ("compute +1", ItemFault::BadNumber),
        ("compute 1_000", ItemFault::BadNumber),
        ("compute 0x5", ItemFault::BadNumber),
        ("compute 5\t", ItemFault::BadNumber),
        ("compute five", ItemFault::BadNumber),
        ("compute 1099511627777", ItemFault::BadNumber),
        ("compute 18446744073709551616", ItemFault::BadNumber),
        ("signal n 0", ItemFault::BadNumber),
        ("signal n 4294967296", ItemFault::BadNumber),
    ];
    for (text, want) in rows {
        assert_eq!(rt; read_item(text), Err(want), "{text}");
    }
}

/// The words of version 3 are read only in version 3, and the older ones in both.
#[test]
fn items_of_version_3(rt: HostRuntime) {
    let rows = [
        ("on 1", RawItem::On(1)),
        ("  on   4294967295 ", RawItem::On(4_294_967_295)),
        ("call v 1", RawItem::Call("v", 1)),
        ("call 05 4294967295", RawItem::Call("05", 4_294_967_295)),
        (" spin ", RawItem::Spin),
    ];
    for (text, want) in rows {
        assert_eq!(rt; read_new_item(text), Ok(want), "{text}");
        assert_eq!(rt; read_item(text), Err(ItemFault::UnknownWord), "{text}");
    }
    let older = [
        "compute 5",
        "signal n 1",
        "wait n",
        "yield",
        "wait",
        "yield 0",
        "sleep",
        "",
    ];
    for text in older {
        assert_eq!(rt; read_new_item(text), read_item(text), "{text}");
    }
}

/// Each fault of an item of version 3 alone, and each combined with a later one.
#[test]
fn the_first_fault_of_an_item_of_version_3(rt: HostRuntime) {
    let rows = [
        ("On 1", ItemFault::UnknownWord),
        ("call\tv 1", ItemFault::UnknownWord),
        ("spin5", ItemFault::UnknownWord),
        ("on", ItemFault::MissingPart),
        ("call", ItemFault::MissingPart),
        ("call 0", ItemFault::MissingPart),
        ("on 1 2", ItemFault::ExtraPart),
        ("on 0 1", ItemFault::ExtraPart),
        ("call v 0 x", ItemFault::ExtraPart),
        ("spin 0", ItemFault::ExtraPart),
        ("on 0", ItemFault::BadNumber),
        ("on 01", ItemFault::BadNumber),
        ("on 4294967296", ItemFault::BadNumber),
        ("call v 0", ItemFault::BadNumber),
        ("call v 4294967296", ItemFault::BadNumber),
        ("call v one", ItemFault::BadNumber),
    ];
    for (text, want) in rows {
        assert_eq!(rt; read_new_item(text), Err(want), "{text}");
    }
}

#[test]
fn texts_of_the_faults(rt: HostRuntime) -> Result<(), Fail> {
    let rows = [
        (ItemFault::UnknownWord, "unknown word"),
        (ItemFault::MissingPart, "missing part"),
        (ItemFault::ExtraPart, "extra part"),
        (ItemFault::BadNumber, "bad number"),
    ];
    for (fault, want) in rows {
        let text = fault.to_string(rt.alloc())?;
        assert_eq!(rt; text.as_str(), want);
    }
    Ok(())
}
