//! Layouts of tables and their stocks by value.

use record_words::{Layout, LayoutFault, LeafClass, Location, Stock};
use std::process::Abort;

/// `Layout::of` tells the first of passes, nodes and leaves that is out of range, by one below or above, and takes the greatest counts.
#[test]
fn layout_of_refuses_counts_out_of_range(rt: HostRuntime) {
    for (passes, nodes, leaves, want) in [
        (0, 0, 0, LayoutFault::Passes as u8),
        (65, 1, 1, LayoutFault::Passes as u8),
        (1, 0, 0, LayoutFault::Nodes as u8),
        (1, 65_536, 1, LayoutFault::Nodes as u8),
        (1, 1, 262_144, LayoutFault::Leaves as u8),
        (64, 65_535, 262_143, 0),
    ] {
        let told = match Layout::of(passes, nodes, leaves) {
            Ok(_) => 0,
            Err(fault) => fault as u8,
        };
        assert!(rt; told == want);
    }
}

/// A small layout has its parts at the words worked out by hand from `docs/FORMATS.md`, none at the words between or behind, and 808 words.
#[test]
fn layouts_have_their_places(rt: HostRuntime) {
    let Ok(layout) = Layout::of(2, 8, 8) else {
        panic!(rt; "no layout");
    };
    for (word, location) in [
        (0, Location::Epoch),
        (1, Location::Root),
        (32, Location::Anchor),
        (48, Location::Pin(0)),
        (64, Location::Pin(1)),
        (80, Location::NodeWord { node: 0, offset: 0 }),
        (138, Location::NodeWord { node: 1, offset: 0 }),
        (544, Location::LeafWord { leaf: 0, offset: 0 }),
    ] {
        assert!(rt; layout.address(location) == word && layout.location(word).is_some());
    }
    for word in [2, 16, 31, 33, 47, 49, 63, 65, 79, 808, 1_000_000] {
        assert!(rt; layout.location(word).is_none(), "at {word}");
    }
    assert!(rt; layout.words() == 808);
}

/// Asserts that the word at `word` + `place` is found as word `place` of leaf record `leaf`, which begins at `word`.
fn expect_word(rt: &impl Abort, layout: &Layout, leaf: u32, word: usize, place: usize) {
    let location = layout.location(word.wrapping_add(place));
    assert!(rt;
        matches!(location, Some(Location::LeafWord { leaf: found, offset }) if found == leaf && offset as usize == place),
        "word {place} of leaf {leaf}"
    );
}

/// Asserts that leaf record `leaf` begins at `word` and has `size` words, and that the first and the last are found there.
fn expect_leaf_record(rt: &impl Abort, layout: &Layout, leaf: u32, word: usize, size: usize) {
    assert!(rt;
        layout.leaf(leaf) == word && layout.leaf_size(leaf) == size,
        "leaf {leaf}"
    );
    expect_word(rt, layout, leaf, word, 0);
    expect_word(rt, layout, leaf, word, size.wrapping_sub(1));
}

/// Leaf records of all five classes begin where the one before ends; the layout ends behind the last. The words are worked out by hand from
/// the sizes of the classes.
#[test]
fn leaf_records_have_their_sizes(rt: HostRuntime) {
    let stock = Stock {
        nodes: 8,
        short: 2,
        medium: 1,
        large: 1,
        wide: 1,
        long: 3,
    };
    let Ok(layout) = Layout::with_stock(2, stock) else {
        panic!(rt; "no layout");
    };
    for (leaf, word, size) in [
        (0, 544, 4),
        (1, 548, 4),
        (2, 552, 6),
        (3, 558, 10),
        (4, 568, 14),
        (5, 582, 33),
        (7, 648, 33),
    ] {
        expect_leaf_record(&rt, &layout, leaf, word, size);
    }
    assert!(rt;
        layout.pin(1) == 64
            && layout.words() == 681
            && layout.bytes() == 5_448
            && layout.location(681).is_none()
    );
}

/// `Layout::with_stock` tells the first of passes, nodes and leaves that is out of range, by one below or above, and takes the greatest
/// counts. Leaf records of all classes count together.
#[test]
fn stocks_are_in_range(rt: HostRuntime) {
    for (passes, nodes, short, long, want) in [
        (0, 1, 1, 0, LayoutFault::Passes as u8),
        (1_025, 0, 0, 0, LayoutFault::Passes as u8),
        (1_024, 0, 1, 0, LayoutFault::Nodes as u8),
        (65, 1, 0, 0, LayoutFault::Leaves as u8),
        (1, 1, 1, 4_294_967_295, LayoutFault::Leaves as u8),
        (1_024, 4_294_967_295, 1, 4_294_967_294, 0),
    ] {
        let stock = Stock {
            short,
            ..Stock::of_class(nodes, LeafClass::Long, long)
        };
        let told = match Layout::with_stock(passes, stock) {
            Ok(_) => 0,
            Err(fault) => fault as u8,
        };
        assert!(rt; told == want);
    }
}

/// `Stock::for_keys` takes the class of the longest key, and counts of nodes and leaves by the number of keys. The rows stand on both sides
/// of the borders of classes and of few keys, and at the greatest number.
#[test]
fn stocks_are_told_by_keys(rt: HostRuntime) {
    for (count, longest, class, nodes, leaves) in [
        (0, 0, LeafClass::Short, 1, 1),
        (2, 8, LeafClass::Short, 1, 3),
        (3, 8, LeafClass::Short, 2, 5),
        (4, 9, LeafClass::Medium, 2, 6),
        (10, 8, LeafClass::Short, 4, 14),
        (32, 8, LeafClass::Short, 11, 43),
        (33, 8, LeafClass::Short, 23, 56),
        (1_000, 24, LeafClass::Medium, 405, 1_405),
        (1_000, 25, LeafClass::Large, 405, 1_405),
        (1_000, 56, LeafClass::Large, 405, 1_405),
        (1_000, 57, LeafClass::Wide, 405, 1_405),
        (1_000, 88, LeafClass::Wide, 405, 1_405),
        (1_000, 89, LeafClass::Long, 405, 1_405),
        (1_000, 1_000_000, LeafClass::Long, 405, 1_405),
        (8_031, 8, LeafClass::Short, 3_188, 11_219),
        (8_192, 8, LeafClass::Short, 3_242, 11_434),
        (
            4_294_967_295,
            8,
            LeafClass::Short,
            1_431_656_277,
            4_294_967_295,
        ),
    ] {
        let want = Stock::of_class(nodes, class, leaves);
        assert!(rt;
            Stock::for_keys(count, longest) == want,
            "{count} of {longest}"
        );
    }
}
