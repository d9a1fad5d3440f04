//! The counter over the key slots.
use crate::parser::{yaml_parser_peek, yaml_parser_scan, yaml_parser_t};
use std::test::Fail;
use yaml_text::{yaml_encoding_t, yaml_token_type_t};

/// The type of the token that a scan takes, and the counter after it.
fn counted_at_a_scan(parser: &mut yaml_parser_t) -> Result<(yaml_token_type_t, usize), Fail> {
    let kind = match yaml_parser_scan(parser) {
        Ok(token) => token.type_(),
        Err(_) => return Err("a fault".into()),
    };
    Ok((kind, parser.scanner.session.state.slots.not_simple_keys))
}

/// The type of the token that a peek shows, and the counter after it.
fn counted_at_a_peek(parser: &mut yaml_parser_t) -> Result<(yaml_token_type_t, usize), Fail> {
    let kind = match yaml_parser_peek(parser) {
        Ok(token) => token.type_(),
        Err(_) => return Err("a fault".into()),
    };
    Ok((kind, parser.scanner.session.state.slots.not_simple_keys))
}

/// The lowest slot is that of `[`, which is no key any more after the line break: so the counter rises past it.
#[test]
fn counter_rises_past_a_stale_slot(rt: HostRuntime) -> Result<(), Fail> {
    let any = yaml_encoding_t::YAML_ANY_ENCODING;
    let mut parser = yaml_parser_t::new(rt.alloc(), b"[\"x\ny\", z: w]", any);
    let start = yaml_token_type_t::YAML_STREAM_START_TOKEN;
    let opener = yaml_token_type_t::YAML_FLOW_SEQUENCE_START_TOKEN;
    let scanned = counted_at_a_scan(&mut parser)?;
    let peeked = counted_at_a_peek(&mut parser)?;
    assert_eq!(rt; scanned, (start, 0));
    assert_eq!(rt; peeked, (opener, 1));
    Ok(())
}
