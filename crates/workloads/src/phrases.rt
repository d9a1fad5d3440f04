//! Words, and phrases that are made of them by chance.
ghost use Rattle.std.specs.Prelude.{◌<◌, length};

use crate::chance::chance_t;
use std::alloc::AllocError;

/// The script of the values.
#[derive(Clone, Copy)]
pub enum tongue_t {
    ENGLISH,
    FRENCH,
    RUSSIAN,
    CHINESE,
    JAPANESE,
}

const KEYS: [&str; 24] = [
    "name", "image", "port", "host", "path", "level", "mode", "user", "group", "count", "limit",
    "region", "cluster", "service", "replicas", "volume", "timeout", "schedule", "version",
    "label", "target", "branch", "policy", "topic",
];

const ENGLISH: [&str; 24] = [
    "main",
    "data",
    "node",
    "a",
    "the",
    "cache",
    "proxy",
    "batch",
    "of",
    "worker",
    "public",
    "to",
    "private",
    "is",
    "shared",
    "daily",
    "stable",
    "before",
    "release",
    "not",
    "required",
    "for",
    "every",
    "environment",
];

const FRENCH: [&str; 20] = [
    "le",
    "fichier",
    "été",
    "modifié",
    "une",
    "erreur",
    "réseau",
    "à",
    "jour",
    "veuillez",
    "réessayer",
    "la",
    "clé",
    "créée",
    "être",
    "utilisateur",
    "où",
    "non",
    "trouvée",
    "français",
];

const RUSSIAN: [&str; 20] = [
    "файл",
    "не",
    "найден",
    "и",
    "ошибка",
    "сети",
    "попробуйте",
    "ещё",
    "раз",
    "пользователь",
    "уже",
    "существует",
    "настройки",
    "сохранены",
    "в",
    "базе",
    "данных",
    "на",
    "сервере",
    "удалить",
];

const CHINESE: [&str; 20] = [
    "文件",
    "不",
    "存在",
    "网络",
    "错误",
    "请",
    "重试",
    "用户",
    "已",
    "保存",
    "设置",
    "数据库",
    "服务器",
    "删除",
    "的",
    "确认",
    "密码",
    "登录",
    "成功",
    "失败",
];

const JAPANESE: [&str; 20] = [
    "ファイル",
    "が",
    "見つかりません",
    "ネットワーク",
    "エラー",
    "もう一度",
    "お試し",
    "ください",
    "ユーザー",
    "は",
    "すでに",
    "存在",
    "します",
    "設定",
    "を",
    "保存",
    "しました",
    "サーバー",
    "削除",
    "の",
];

fn pick(chance: &mut chance_t, words: &[&'static str]) -> &'static str
    requires { 0 < length words.now }
{
    words[chance.below(words.len())]
}

/// A key, in ASCII.
pub fn key(chance: &mut chance_t) -> &'static str {
    pick(chance, &KEYS)
}

/// A word of the tongue.
pub fn word(tongue: tongue_t, chance: &mut chance_t) -> &'static str {
    match tongue {
        tongue_t::ENGLISH => pick(chance, &ENGLISH),
        tongue_t::FRENCH => pick(chance, &FRENCH),
        tongue_t::RUSSIAN => pick(chance, &RUSSIAN),
        tongue_t::CHINESE => pick(chance, &CHINESE),
        tongue_t::JAPANESE => pick(chance, &JAPANESE),
    }
}

/// What stands between two words.
fn between(tongue: tongue_t) -> &'static str {
    match tongue {
        tongue_t::CHINESE | tongue_t::JAPANESE => "",
        _ => " ",
    }
}

/// Appends so many words.
fn push_words(
    out: &mut String,
    tongue: tongue_t,
    chance: &mut chance_t,
    count: usize,
) -> Result<(), AllocError> {
    for at in 0..count {
        if at > 0 {
            out.push_str(between(tongue))?;
        }
        out.push_str(word(tongue, chance))?;
    }
    Ok(())
}

/// Appends a number below a bound.
fn push_number(out: &mut String, chance: &mut chance_t, bound: usize) -> Result<(), AllocError>
    requires { 0 < bound }
{
    let number = chance.below(bound);
    write!(out, "{number}")
}

/// Appends a name such as programs have: two words and a number.
fn push_name(out: &mut String, chance: &mut chance_t) -> Result<(), AllocError> {
    let first = word(tongue_t::ENGLISH, chance);
    let second = key(chance);
    let number = chance.below(1000);
    write!(out, "{first}-{second}-{number}")
}

/// Appends what a setting is given: a number, a flag, a word or a name.
fn push_value(out: &mut String, tongue: tongue_t, chance: &mut chance_t) -> Result<(), AllocError> {
    match chance.below(8) {
        0 | 1 => push_number(out, chance, 100_000),
        2 => out.push_str("true"),
        3 => out.push_str("false"),
        4 | 5 => push_name(out, chance),
        _ => out.push_str(word(tongue, chance)),
    }
}

/// Appends what stands between quotes: words, and escapes that the quote has, which are given.
fn push_escaped(
    out: &mut String,
    tongue: tongue_t,
    chance: &mut chance_t,
    escapes: &[&'static str],
) -> Result<(), AllocError>
    requires { 0 < length escapes.now }
{
    for _ in 0..3 {
        out.push_str(word(tongue, chance))?;
        out.push_str(pick(chance, escapes))?;
    }
    out.push_str(word(tongue, chance))
}

const DOUBLE_ESCAPES: [&str; 8] = [
    "\\n",
    "\\t",
    "\\\"",
    "\\\\",
    "\\n",
    "\\x41",
    "\\u263A",
    "\\U0001F600",
];

const SINGLE_ESCAPES: [&str; 2] = ["''", "'' "];

/// Appends what a letter stands for in a template.
fn push_mark(
    out: &mut String,
    mark: char,
    tongue: tongue_t,
    chance: &mut chance_t,
) -> Result<(), AllocError> {
    match mark {
        'k' => out.push_str(key(chance)),
        'w' => out.push_str(word(tongue, chance)),
        's' => {
            let count = 2 + chance.below(5);
            push_words(out, tongue, chance, count)
        }
        'l' => push_words(out, tongue, chance, 12),
        'n' => push_number(out, chance, 100_000),
        'd' => push_number(out, chance, 100),
        'i' => push_name(out, chance),
        'v' => push_value(out, tongue, chance),
        'e' => push_escaped(out, tongue, chance, &DOUBLE_ESCAPES),
        'q' => push_escaped(out, tongue, chance, &SINGLE_ESCAPES),
        _ => Ok(()),
    }
}

/// Appends a template. In it `$` and a letter stand for something that is chosen by chance: `$k` a key, `$w` a word,
/// `$s` two to six words, `$l` twelve, `$n` a number, `$d` one below 100, `$i` a name, `$v` a value, `$e` words with
/// escapes of double quotes, `$q` words with `''`.
pub fn push_phrases(
    out: &mut String,
    template: &str,
    tongue: tongue_t,
    chance: &mut chance_t,
) -> Result<(), AllocError> {
    let mut marked = false;
    for c in template.chars() {
        if marked {
            push_mark(out, c, tongue, chance)?;
            marked = false;
        } else if c == '$' {
            marked = true;
        } else {
            out.push(c)?;
        }
    }
    Ok(())
}
