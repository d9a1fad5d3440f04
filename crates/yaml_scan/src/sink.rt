//! The sink of tokens, and where the group of a step goes: into the queue, or straight to a sink if nothing of it has
//! to wait.
ghost use Rattle.std.specs.Prelude.{◌≡◌, ℕ, ◌+◌, ◌<◌, ◌≤◌, ◌^◌, List, [], ◌∷◌, ◌++◌, ◌⊎◌, true, false, length};
ghost use Rattle.std.specs.Prelude.{Bool, MatchResult, if◌then◌else◌, OnErr, OnOk};
ghost use Rattle.std.specs.VecDeque.{deque_capacity};
ghost use Rattle.yaml_text.specs.declared.token.yaml_token_t.{yaml_token_t as code_token_t};
ghost use Rattle.yaml_text.specs.Token.{Token, data_of, token_of};
ghost use Rattle.yaml_text.specs.Text.{Text};
ghost use Rattle.yaml_scan.specs.Sink.{said_len, texts_len};
ghost use Rattle.yaml_scan.specs.Lent.{lent_token};
ghost use Rattle.yaml_scan.specs.Words.{HasWords};
ghost use Rattle.yaml_scan.specs.declared.stop.stop_t.TheVariants.{SINK};
ghost use Rattle.yaml_scan.specs.inside.Queue.{ends_at, leads_at, starts_at};
ghost use Rattle.yaml_scan.specs.Groups.Token.{InsertedKey};
ghost use Rattle.yaml_scan.specs.inside.Handed.{Gives, IsHandedOn, group_tokens, group_with, keys_of, lone, starts_of, told_leads};
ghost use Rattle.yaml_scan.specs.inside.Scanner.{scanner_of};

use crate::groups::{block_t, group_t, token_at};
use crate::lent::yaml_lent_scalar_t;
use crate::state::state_t;
use crate::stop::{stop_by_sink, stop_t, stopped};
use std::alloc::{AllocError, Global};
use yaml_text::{unnamed_yaml_token_t_data, yaml_mark_t, yaml_token_t};

/// Takes the tokens of an input, one after the other.
pub trait yaml_token_sink_t {
    // Between two states these tokens were taken, in this order, and nothing else.
    ghost took: { Self → List Token → Self → Type 0 };

    // What is known if it found no memory for a token: nothing, or that this does not happen.
    ghost may_refuse: { Type 0 };

    // It has taken no more than it has room for.
    ghost within: { Self → Type 0 };

    // What is known if it says that so many more tokens, whose texts have so many bytes, find no room.
    ghost lacks: { Self → ℕ → ℕ → Type 0 };

    /// Takes a token. `AllocError` if it found no memory; then nothing was taken.
    fn put(&mut self, token: yaml_token_t) -> Result<(), AllocError>
        requires { HasWords (token_of token).token_data }
        ensures taken { OnOk result (took self.old (token_of token ∷ []) self.new) }
        ensures kept { OnErr result (took self.old [] self.new) }
        ensures refused { OnErr result may_refuse };

    /// Takes a scalar that stands in the text as it is. It is lent: the value lives until this returns. `AllocError` if
    /// it found no memory for the token; then nothing was taken.
    fn put_scalar(&mut self, scalar: &yaml_lent_scalar_t) -> Result<(), AllocError>
        requires { HasWords (lent_token scalar.now).token_data }
        ensures taken { OnOk result (took self.old (lent_token scalar.now ∷ []) self.new) }
        ensures kept { OnErr result (took self.old [] self.new) }
        ensures refused { OnErr result may_refuse };

    /// A list in whose room the text of a token to come may be put. What is in it is thrown away.
    fn room(&mut self, alloc: Global) -> Vec<u8>
        ensures { took self.old [] self.new };

    /// Whether so many more tokens find room, whose texts have so many bytes.
    fn has_room(&self, count: u128, texts: u128) -> bool
        ensures room { result ≡ true → within self.now → (tokens : List Token) (after : Self) → length tokens ≤ count
            → texts_len tokens ≤ texts → took self.now tokens after → within after }
        ensures lack { result ≡ false → lacks self.now count texts };

    ghost took_none: { (s : Self) → took s [] s };

    ghost took_more: { (a b c : Self) (xs ys : List Token) → took a xs b → took b ys c → took a (xs ++ ys) c };

    ghost within_none: { (a b : Self) → took a [] b → within a → within b };
}

/// The sink of a scanner whose tokens all go through the queue. It is given none.
#[derive(Drop)]
pub(crate) struct no_sink_t {}

impl yaml_token_sink_t for no_sink_t {
    ghost took = { λ a tokens b. Unit {0} };

    ghost may_refuse = { Unit {0} };

    ghost within = { λ s. Unit {0} };

    ghost lacks = { λ s count texts. Unit {0} };

    fn put(&mut self, _token: yaml_token_t) -> Result<(), AllocError> {
        Ok(())
    }

    fn put_scalar(&mut self, _scalar: &yaml_lent_scalar_t) -> Result<(), AllocError> {
        Ok(())
    }

    #[inline(always)]
    fn room(&mut self, alloc: Global) -> Vec<u8> {
        Vec::new(alloc)
    }

    #[inline(always)]
    fn has_room(&self, _count: u128, _texts: u128) -> bool {
        true
    }

    ghost took_none = { λ s. tt };

    ghost took_more = { λ a b c xs ys e f. tt };

    ghost within_none = { λ a b e w. tt };
}

/// Gives a token to a sink.
#[inline(always)]
pub(crate) fn give<S: yaml_token_sink_t>(sink: &mut S, token: yaml_token_t) -> Result<(), stop_t>
    requires { HasWords (token_of token).token_data }
    ensures { Gives (λ tokens. S.took sink.old tokens sink.new) S.may_refuse (token_of token ∷ []) result }
{
    match sink.put(token) {
        Ok(_) => Ok(()),
        Err(_) => Err(stop_by_sink()),
    }
}

/// Lends a scalar to a sink.
#[inline(always)]
fn give_scalar<S: yaml_token_sink_t>(
    sink: &mut S,
    scalar: &yaml_lent_scalar_t,
) -> Result<(), stop_t>
    requires { HasWords (lent_token scalar.now).token_data }
    ensures { Gives (λ tokens. S.took sink.old tokens sink.new) S.may_refuse (lent_token scalar.now ∷ []) result }
{
    match sink.put_scalar(scalar) {
        Ok(_) => Ok(()),
        Err(_) => Err(stop_by_sink()),
    }
}

/// Gives block ends of one mark to a sink.
fn give_ends<S: yaml_token_sink_t>(
    sink: &mut S,
    ends: usize,
    mark: yaml_mark_t,
) -> Result<(), stop_t>
    ensures { Gives (λ tokens. S.took sink.old tokens sink.new) S.may_refuse (told_leads (ends_at ends mark)) result }
{
    'ends: for _ in 0..ends {
        give(sink, token_at(unnamed_yaml_token_t_data::BLOCK_END, mark))?;
    }
    Ok(())
}

/// Gives the start of a block collection, or none, to a sink.
fn give_start<S: yaml_token_sink_t>(
    sink: &mut S,
    opens: block_t,
    mark: yaml_mark_t,
) -> Result<(), stop_t>
    ensures { Gives (λ tokens. S.took sink.old tokens sink.new) S.may_refuse
        (told_leads (starts_at opens mark)) result }
{
    match opens {
        block_t::NONE => Ok(()),
        block_t::SEQUENCE => {
            give(
                sink,
                token_at(unnamed_yaml_token_t_data::BLOCK_SEQUENCE_START, mark),
            )
        }
        block_t::MAPPING => {
            give(
                sink,
                token_at(unnamed_yaml_token_t_data::BLOCK_MAPPING_START, mark),
            )
        }
    }
}

/// Gives block ends, and then the start of a block collection or none, to a sink.
#[inline(never)]
fn give_blocks<S: yaml_token_sink_t>(
    sink: &mut S,
    ends: usize,
    opens: block_t,
    mark: yaml_mark_t,
) -> Result<(), stop_t>
    ensures { Gives (λ tokens. S.took sink.old tokens sink.new) S.may_refuse
        (told_leads (ends_at ends mark ++ starts_at opens mark)) result }
{
    give_ends(sink, ends, mark)?;
    give_start(sink, opens, mark)
}

/// Whether some block ends, and what is opened after them, are any tokens.
#[inline(always)]
fn has_blocks(ends: usize, opens: block_t) -> bool
    ensures { (mark : yaml_mark_t) → result ≡ false → ends_at ends mark ++ starts_at opens mark ≡ [] }
{
    ends > 0 || !matches!(opens, block_t::NONE)
}

/// Gives block ends, and then the start of a block collection or none, to a sink. Most tokens have neither before them.
#[inline(always)]
fn give_any_blocks<S: yaml_token_sink_t>(
    sink: &mut S,
    ends: usize,
    opens: block_t,
    mark: yaml_mark_t,
) -> Result<(), stop_t>
    ensures { Gives (λ tokens. S.took sink.old tokens sink.new) S.may_refuse
        (told_leads (ends_at ends mark ++ starts_at opens mark)) result }
{
    if has_blocks(ends, opens) {
        give_blocks(sink, ends, opens, mark)
    } else {
        Ok(())
    }
}

/// Gives a key, or none, to a sink.
#[inline(always)]
fn give_key<S: yaml_token_sink_t>(sink: &mut S, key: bool, mark: yaml_mark_t) -> Result<(), stop_t>
    ensures { Gives (λ tokens. S.took sink.old tokens sink.new) S.may_refuse
        (told_leads (if key then InsertedKey mark ∷ [] else [])) result }
{
    if key {
        give(sink, token_at(unnamed_yaml_token_t_data::KEY, mark))
    } else {
        Ok(())
    }
}

/// Gives what a group hands out before its token, which starts at a mark, to a sink.
#[inline(always)]
fn give_leads<S: yaml_token_sink_t>(
    sink: &mut S,
    ends: usize,
    opens: block_t,
    key: bool,
    mark: yaml_mark_t,
) -> Result<(), stop_t>
    ensures { Gives (λ tokens. S.took sink.old tokens sink.new) S.may_refuse (told_leads (leads_at ends opens key mark))
        result }
{
    match give_any_blocks(sink, ends, opens, mark) {
        Ok(_) => give_key(sink, key, mark),
        Err(stop) => Err(stopped(stop)),
    }
}

/// Gives all that a group hands out to a sink.
#[inline(always)]
pub(crate) fn give_group<S: yaml_token_sink_t>(sink: &mut S, group: group_t) -> Result<(), stop_t>
    requires { HasWords (token_of group.token).token_data }
    ensures { Gives (λ tokens. S.took sink.old tokens sink.new) S.may_refuse (group_tokens group) result }
{
    match give_leads(
        sink,
        group.ends,
        group.opens,
        group.key,
        group.token.start_mark,
    ) {
        Ok(_) => give(sink, group.token),
        Err(stop) => Err(stopped(stop)),
    }
}

/// Gives all that the group of a scalar hands out to a sink, which is lent the scalar.
#[inline(always)]
fn give_lent<S: yaml_token_sink_t>(
    sink: &mut S,
    ends: usize,
    opens: block_t,
    key: bool,
    scalar: &yaml_lent_scalar_t,
) -> Result<(), stop_t>
    requires { HasWords (lent_token scalar.now).token_data }
    ensures { (t : code_token_t) → token_of t ≡ lent_token scalar.now
        → Gives (λ tokens. S.took sink.old tokens sink.new) S.may_refuse (group_tokens (group_with ends opens key t))
        result }
{
    match give_leads(sink, ends, opens, key, scalar.start_mark) {
        Ok(_) => give_scalar(sink, scalar),
        Err(stop) => Err(stopped(stop)),
    }
}

/// Gives all that a group without a key hands out to a sink.
#[inline(always)]
fn give_keyless<S: yaml_token_sink_t>(sink: &mut S, group: group_t) -> Result<(), stop_t>
    requires key { group.key ≡ false }
    requires words { HasWords (token_of group.token).token_data }
    ensures { Gives (λ tokens. S.took sink.old tokens sink.new) S.may_refuse (group_tokens group) result }
{
    match give_any_blocks(sink, group.ends, group.opens, group.token.start_mark) {
        Ok(_) => give(sink, group.token),
        Err(stop) => Err(stopped(stop)),
    }
}

/// 1 if the start of a block collection is handed out, and else 0.
#[inline]
fn starts_of(opens: block_t) -> u128
    ensures { result ≡ starts_of opens }
{
    match opens {
        block_t::NONE => 0,
        _ => 1,
    }
}

/// 1 if a key is handed out, and else 0.
#[inline]
fn keys_of(key: bool) -> u128
    ensures { result ≡ keys_of key }
{
    if key { 1 } else { 0 }
}

/// How many tokens a group hands out that has so many block ends, opens that, and has a key or none.
#[inline(always)]
fn count_with(ends: usize, opens: block_t, key: bool) -> u128
    ensures { (t : code_token_t) → result ≡ length (group_tokens (group_with ends opens key t)) }
{
    ends as u128 + starts_of(opens) + keys_of(key) + 1
}

/// How many tokens a group hands out.
#[inline(always)]
pub(crate) fn count_of(group: &group_t) -> u128
    ensures { result ≡ length (group_tokens group.now) }
{
    count_with(group.ends, group.opens, group.key)
}

/// How many bytes the texts have of what a token says.
#[inline(always)]
pub(crate) fn said_len(said: &unnamed_yaml_token_t_data) -> u128
    ensures { result ≡ said_len (data_of said.now) }
{
    match said {
        unnamed_yaml_token_t_data::SCALAR { value, style: _ }
        | unnamed_yaml_token_t_data::ANCHOR { value }
        | unnamed_yaml_token_t_data::ALIAS { value } => value.len() as u128,
        unnamed_yaml_token_t_data::TAG { handle, suffix } => {
            handle.len() as u128 + suffix.len() as u128
        }
        unnamed_yaml_token_t_data::TAG_DIRECTIVE { handle, prefix } => {
            handle.len() as u128 + prefix.len() as u128
        }
        _ => 0,
    }
}

/// Whether a sink has room for the group of a token that has so many bytes of texts, and before which so many block
/// ends are handed out.
#[inline(always)]
pub(crate) fn has_room_for<S: yaml_token_sink_t>(sink: &S, ends: usize, texts: u128) -> bool
    ensures { result ≡ true → S.within sink.now → (group : group_t) (after : S) → group.ends ≡ ends
        → said_len (token_of group.token).token_data ≤ texts → S.took sink.now (group_tokens group) after
        → S.within after }
{
    sink.has_room(ends as u128 + 3, texts)
}

/// How many tokens a group without a key has at most: it hands out so many block ends, and opens that. Most are a token
/// alone.
#[inline(always)]
fn most_without_key(ends: usize, opens: block_t) -> u128
    ensures { ends + starts_of opens + 1 ≤ result }
{
    if ends == 0 && matches!(opens, block_t::NONE) {
        1
    } else {
        ends as u128 + 3
    }
}

/// Whether a sink has room for the group of a lexeme that was laid, which hands out no key: so many block ends, and
/// what it opens, and a token that has so many bytes of texts.
#[inline(always)]
pub(crate) fn has_room_for_laid<S: yaml_token_sink_t>(
    sink: &S,
    ends: usize,
    opens: block_t,
    texts: u128,
) -> bool
    ensures { result ≡ true → S.within sink.now → (group : group_t) (after : S) → group.ends ≡ ends
        → group.opens ≡ opens → group.key ≡ false → said_len (token_of group.token).token_data ≤ texts
        → S.took sink.now (group_tokens group) after → S.within after }
{
    sink.has_room(most_without_key(ends, opens), texts)
}

/// Whether a sink that takes groups straight has room for that of a lexeme, which may close all levels and whose texts
/// have so many bytes, and for a token without texts after it.
#[inline(always)]
pub(crate) fn has_room_for_both<const DIRECT: bool, S: yaml_token_sink_t>(
    sink: &S,
    levels: &[u64],
    texts: u128,
) -> bool
    ensures direct { result ≡ true → DIRECT ≡ true }
    ensures room { result ≡ true → S.within sink.now → (tokens : List Token) (after : S)
        → length tokens ≤ length levels.now + 4 → texts_len tokens ≤ texts → S.took sink.now tokens after
        → S.within after }
{
    DIRECT && sink.has_room((levels.len() + 4) as u128, texts)
}

/// Hands on the group of a step: straight to the sink if `DIRECT` and it need not wait, and else into the queue, which
/// has room.
#[inline(always)]
pub(crate) fn hand_on<const DIRECT: bool, S: yaml_token_sink_t>(
    state: &mut state_t,
    sink: &mut S,
    waits: bool,
    group: group_t,
) -> Result<(), stop_t>
    requires room { length state.old.layout.queue.groups.items < deque_capacity state.old.layout.queue.groups }
    requires words { HasWords (token_of group.token).token_data }
    requires done { state.old.layout.queue.done + 1 < 2 ^ 64 }
    requires taken { state.old.taken + length (group_tokens group) < 2 ^ 128 }
    ensures { (text : Text) → IsHandedOn DIRECT waits (scanner_of text state.old) (scanner_of text state.new) group
        (λ tokens. S.took sink.old tokens sink.new)
        S.may_refuse result }
{
    if !DIRECT || waits {
        state.layout.queue.push(group);
        return Ok(());
    }
    let count = count_of(&group);
    match give_group(sink, group) {
        Ok(_) => {
            state.layout.queue.done += 1;
            state.taken += count;
            Ok(())
        }
        Err(stop) => Err(stopped(stop)),
    }
}

/// Hands on the group of a step that hands out no key: straight to the sink if `DIRECT` and it need not wait, and else
/// into the queue, which has room.
#[inline(always)]
pub(crate) fn hand_keyless<const DIRECT: bool, S: yaml_token_sink_t>(
    state: &mut state_t,
    sink: &mut S,
    waits: bool,
    group: group_t,
) -> Result<(), stop_t>
    requires key { group.key ≡ false }
    requires room { length state.old.layout.queue.groups.items < deque_capacity state.old.layout.queue.groups }
    requires words { HasWords (token_of group.token).token_data }
    requires done { state.old.layout.queue.done + 1 < 2 ^ 64 }
    requires taken { state.old.taken + length (group_tokens group) < 2 ^ 128 }
    ensures { (text : Text) → IsHandedOn DIRECT waits (scanner_of text state.old) (scanner_of text state.new) group
        (λ tokens. S.took sink.old tokens sink.new)
        S.may_refuse result }
{
    if !DIRECT || waits {
        state.layout.queue.push(group);
        return Ok(());
    }
    let count = count_of(&group);
    match give_keyless(sink, group) {
        Ok(_) => {
            state.layout.queue.done += 1;
            state.taken += count;
            Ok(())
        }
        Err(stop) => Err(stopped(stop)),
    }
}

/// Hands on the group of a step that is a token alone: straight to the sink if `DIRECT` and it need not wait, and else
/// into the queue, which has room.
#[inline(always)]
pub(crate) fn hand_token<const DIRECT: bool, S: yaml_token_sink_t>(
    state: &mut state_t,
    sink: &mut S,
    waits: bool,
    token: yaml_token_t,
) -> Result<(), stop_t>
    requires room { length state.old.layout.queue.groups.items < deque_capacity state.old.layout.queue.groups }
    requires words { HasWords (token_of token).token_data }
    requires done { state.old.layout.queue.done + 1 < 2 ^ 64 }
    requires taken { state.old.taken + length (group_tokens (lone token)) < 2 ^ 128 }
    ensures { (text : Text) → IsHandedOn DIRECT waits (scanner_of text state.old) (scanner_of text state.new)
        (lone token) (λ tokens. S.took sink.old tokens sink.new)
        S.may_refuse result }
{
    if !DIRECT || waits {
        state.layout.queue.push_alone(token);
        return Ok(());
    }
    match give(sink, token) {
        Ok(_) => {
            state.layout.queue.done += 1;
            state.taken += 1;
            Ok(())
        }
        Err(stop) => Err(stopped(stop)),
    }
}

/// Hands on the group of a scalar that a step has laid and that need not wait: straight to the sink, which is lent the
/// scalar. The group has so many block ends, opens that, and has a key or none.
#[inline(always)]
pub(crate) fn hand_lent<S: yaml_token_sink_t>(
    state: &mut state_t,
    sink: &mut S,
    ends: usize,
    opens: block_t,
    key: bool,
    scalar: &yaml_lent_scalar_t,
) -> Result<(), stop_t>
    requires words { HasWords (lent_token scalar.now).token_data }
    requires done { state.old.layout.queue.done + 1 < 2 ^ 64 }
    requires taken { (t : code_token_t) × (token_of t ≡ lent_token scalar.now)
        × (state.old.taken + length (group_tokens (group_with ends opens key t)) < 2 ^ 128) }
    ensures { (text : Text) (waits : Bool) (t : code_token_t) → waits ≡ false → token_of t ≡ lent_token scalar.now
        → IsHandedOn true waits (scanner_of text state.old) (scanner_of text state.new) (group_with ends opens key t)
        (λ tokens. S.took sink.old tokens sink.new)
        S.may_refuse result }
{
    let count = count_with(ends, opens, key);
    match give_lent(sink, ends, opens, key, scalar) {
        Ok(_) => {
            state.layout.queue.done += 1;
            state.taken += count;
            Ok(())
        }
        Err(stop) => Err(stopped(stop)),
    }
}
