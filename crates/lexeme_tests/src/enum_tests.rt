//! The numbers and the order of the variants of the enums, and the words of errors and faults.
use std::alloc::Global;
use std::cmp::Ordering;
use std::hash::{DefaultHasher, Hash, Hasher};
use std::process::Abort;
use std::test::Fail;
use yaml_text::{
    yaml_break_t, yaml_encoding_t, yaml_error_type_t, yaml_fault_t, yaml_mapping_style_t,
    yaml_mark_t, yaml_scalar_style_t, yaml_sequence_style_t, yaml_token_type_t,
};

const FRONT: yaml_mark_t = yaml_mark_t {
    index: 0,
    line: 0,
    column: 0,
};

const MEMORY_FAULT: yaml_fault_t = yaml_fault_t {
    error: yaml_error_type_t::YAML_MEMORY_ERROR,
    problem: None,
    problem_offset: 0,
    problem_value: 0,
    problem_mark: FRONT,
    context: None,
    context_mark: FRONT,
};

fn hash_of<T: Hash>(value: &T) -> u64 {
    let mut hasher = DefaultHasher::new();
    value.hash(&mut hasher);
    hasher.finish()
}

/// What comparisons tell of two values: whether the first is less, their order by `cmp` and by `partial_cmp`, whether
/// they are equal, and whether they have the same hash.
fn compared<T: Copy + Ord + Hash>(a: &T, b: &T) -> (bool, Ordering, Option<Ordering>, bool, bool) {
    (
        a < b,
        a.cmp(b),
        a.partial_cmp(b),
        a == b,
        hash_of(a) == hash_of(b),
    )
}

/// Asserts that the value of that number is at that place among all of them, is equal only to itself, and has its
/// own hash.
fn expect_place<T: Copy + Ord + Hash>(rt: &impl Abort, i: usize, a: &T, values: &[T]) {
    for (j, b) in values.iter().enumerate() {
        let order = i.cmp(&j);
        let want = (i < j, order, Some(order), i == j, i == j);
        assert!(rt; compared(a, b) == want, "{i} and {j}");
    }
}

/// Asserts that the values are in their order, and that only equal values have the same hash.
fn expect_order<T: Copy + Ord + Hash>(rt: &impl Abort, values: &[T]) {
    for (i, a) in values.iter().enumerate() {
        expect_place(rt, i, a, values);
    }
}

#[test]
fn encodings(rt: HostRuntime) {
    const VALUES: [yaml_encoding_t; 4] = [
        yaml_encoding_t::YAML_ANY_ENCODING,
        yaml_encoding_t::YAML_UTF8_ENCODING,
        yaml_encoding_t::YAML_UTF16LE_ENCODING,
        yaml_encoding_t::YAML_UTF16BE_ENCODING,
    ];
    expect_order(&rt, &VALUES);
    for (number, value) in VALUES.iter().enumerate() {
        assert_eq!(rt; *value as usize, number);
    }
}

#[test]
fn breaks(rt: HostRuntime) {
    const VALUES: [yaml_break_t; 4] = [
        yaml_break_t::YAML_ANY_BREAK,
        yaml_break_t::YAML_CR_BREAK,
        yaml_break_t::YAML_LN_BREAK,
        yaml_break_t::YAML_CRLN_BREAK,
    ];
    expect_order(&rt, &VALUES);
    for (number, value) in VALUES.iter().enumerate() {
        assert_eq!(rt; *value as usize, number);
    }
}

#[test]
fn error_types(rt: HostRuntime) {
    const VALUES: [yaml_error_type_t; 8] = [
        yaml_error_type_t::YAML_NO_ERROR,
        yaml_error_type_t::YAML_MEMORY_ERROR,
        yaml_error_type_t::YAML_READER_ERROR,
        yaml_error_type_t::YAML_SCANNER_ERROR,
        yaml_error_type_t::YAML_PARSER_ERROR,
        yaml_error_type_t::YAML_COMPOSER_ERROR,
        yaml_error_type_t::YAML_WRITER_ERROR,
        yaml_error_type_t::YAML_EMITTER_ERROR,
    ];
    expect_order(&rt, &VALUES);
    for (number, value) in VALUES.iter().enumerate() {
        assert_eq!(rt; *value as usize, number);
    }
}

#[test]
fn scalar_styles(rt: HostRuntime) {
    const VALUES: [yaml_scalar_style_t; 6] = [
        yaml_scalar_style_t::YAML_ANY_SCALAR_STYLE,
        yaml_scalar_style_t::YAML_PLAIN_SCALAR_STYLE,
        yaml_scalar_style_t::YAML_SINGLE_QUOTED_SCALAR_STYLE,
        yaml_scalar_style_t::YAML_DOUBLE_QUOTED_SCALAR_STYLE,
        yaml_scalar_style_t::YAML_LITERAL_SCALAR_STYLE,
        yaml_scalar_style_t::YAML_FOLDED_SCALAR_STYLE,
    ];
    expect_order(&rt, &VALUES);
    for (number, value) in VALUES.iter().enumerate() {
        assert_eq!(rt; *value as usize, number);
    }
}

#[test]
fn sequence_styles(rt: HostRuntime) {
    const VALUES: [yaml_sequence_style_t; 3] = [
        yaml_sequence_style_t::YAML_ANY_SEQUENCE_STYLE,
        yaml_sequence_style_t::YAML_BLOCK_SEQUENCE_STYLE,
        yaml_sequence_style_t::YAML_FLOW_SEQUENCE_STYLE,
    ];
    expect_order(&rt, &VALUES);
    for (number, value) in VALUES.iter().enumerate() {
        assert_eq!(rt; *value as usize, number);
    }
}

#[test]
fn mapping_styles(rt: HostRuntime) {
    const VALUES: [yaml_mapping_style_t; 3] = [
        yaml_mapping_style_t::YAML_ANY_MAPPING_STYLE,
        yaml_mapping_style_t::YAML_BLOCK_MAPPING_STYLE,
        yaml_mapping_style_t::YAML_FLOW_MAPPING_STYLE,
    ];
    expect_order(&rt, &VALUES);
    for (number, value) in VALUES.iter().enumerate() {
        assert_eq!(rt; *value as usize, number);
    }
}

#[test]
fn token_types(rt: HostRuntime) {
    const VALUES: [yaml_token_type_t; 22] = [
        yaml_token_type_t::YAML_NO_TOKEN,
        yaml_token_type_t::YAML_STREAM_START_TOKEN,
        yaml_token_type_t::YAML_STREAM_END_TOKEN,
        yaml_token_type_t::YAML_VERSION_DIRECTIVE_TOKEN,
        yaml_token_type_t::YAML_TAG_DIRECTIVE_TOKEN,
        yaml_token_type_t::YAML_DOCUMENT_START_TOKEN,
        yaml_token_type_t::YAML_DOCUMENT_END_TOKEN,
        yaml_token_type_t::YAML_BLOCK_SEQUENCE_START_TOKEN,
        yaml_token_type_t::YAML_BLOCK_MAPPING_START_TOKEN,
        yaml_token_type_t::YAML_BLOCK_END_TOKEN,
        yaml_token_type_t::YAML_FLOW_SEQUENCE_START_TOKEN,
        yaml_token_type_t::YAML_FLOW_SEQUENCE_END_TOKEN,
        yaml_token_type_t::YAML_FLOW_MAPPING_START_TOKEN,
        yaml_token_type_t::YAML_FLOW_MAPPING_END_TOKEN,
        yaml_token_type_t::YAML_BLOCK_ENTRY_TOKEN,
        yaml_token_type_t::YAML_FLOW_ENTRY_TOKEN,
        yaml_token_type_t::YAML_KEY_TOKEN,
        yaml_token_type_t::YAML_VALUE_TOKEN,
        yaml_token_type_t::YAML_ALIAS_TOKEN,
        yaml_token_type_t::YAML_ANCHOR_TOKEN,
        yaml_token_type_t::YAML_TAG_TOKEN,
        yaml_token_type_t::YAML_SCALAR_TOKEN,
    ];
    expect_order(&rt, &VALUES);
    for (number, value) in VALUES.iter().enumerate() {
        assert_eq!(rt; *value as usize, number);
    }
}

/// Asserts the word of a kind of error.
fn expect_word(
    rt: &impl Abort,
    alloc: Global,
    error: yaml_error_type_t,
    word: &str,
) -> Result<(), Fail> {
    let shown = error.to_string(alloc)?;
    assert_eq!(rt; shown.as_str(), word);
    Ok(())
}

/// Asserts the words of a fault of a kind of error, which has a word.
fn expect_words(
    rt: &impl Abort,
    alloc: Global,
    error: yaml_error_type_t,
    word: &str,
) -> Result<(), Fail> {
    let fault = yaml_fault_t {
        error,
        ..MEMORY_FAULT
    };
    let words = format!(in alloc; "YAML {word} fault")?;
    let shown = fault.to_string(alloc)?;
    assert_eq!(rt; shown.as_str(), words.as_str());
    Ok(())
}

/// The word of each kind of error, and a fault of that kind.
#[test]
fn words(rt: HostRuntime) -> Result<(), Fail> {
    const ROWS: [(yaml_error_type_t, &str); 8] = [
        (yaml_error_type_t::YAML_NO_ERROR, "none"),
        (yaml_error_type_t::YAML_MEMORY_ERROR, "memory"),
        (yaml_error_type_t::YAML_READER_ERROR, "reader"),
        (yaml_error_type_t::YAML_SCANNER_ERROR, "scanner"),
        (yaml_error_type_t::YAML_PARSER_ERROR, "parser"),
        (yaml_error_type_t::YAML_COMPOSER_ERROR, "composer"),
        (yaml_error_type_t::YAML_WRITER_ERROR, "writer"),
        (yaml_error_type_t::YAML_EMITTER_ERROR, "emitter"),
    ];
    for (error, word) in &ROWS {
        expect_word(&rt, rt.alloc(), *error, word)?;
        expect_words(&rt, rt.alloc(), *error, word)?;
    }
    Ok(())
}
