//! What texts are made of.

use crate::phrases::tongue_t;

/// What the texts of a kind are made of: what stands before the blocks and after them, and what a block is made of.
#[derive(Clone, Copy)]
pub struct kind_t {
    pub head: &'static str,
    pub block: &'static str,
    pub tail: &'static str,
    pub tongue: tongue_t,
    /// Whether its texts are in UTF-16, with a byte order mark.
    pub wide: bool,
    /// How many blocks a text has, about.
    pub blocks: usize,
}

/// Texts of blocks alone, in English.
fn english(block: &'static str, blocks: usize) -> kind_t {
    kind_t {
        head: "",
        block,
        tail: "",
        tongue: tongue_t::ENGLISH,
        wide: false,
        blocks,
    }
}

/// Texts of blocks in English between a head and a tail.
fn between(head: &'static str, block: &'static str, tail: &'static str, blocks: usize) -> kind_t {
    kind_t {
        head,
        block,
        tail,
        tongue: tongue_t::ENGLISH,
        wide: false,
        blocks,
    }
}

const MANIFEST: &str = r#"---
# $s
apiVersion: apps/v1
kind: Deployment
metadata:
  name: $i
  namespace: $w
  labels:
    app.kubernetes.io/name: $i
    app.kubernetes.io/version: "$d.$d"
spec:
  replicas: $d
  selector:
    matchLabels:
      app: $i
  template:
    spec:
      containers:
        - name: $i
          image: registry.example.org/$w/$i:$d.$d
          imagePullPolicy: IfNotPresent
          args: ["--$k=$v", "--$k", "$n"]
          env:
            - name: LOG_LEVEL
              value: $w
            - name: DATABASE_URL
              value: "postgres://$w:$w@$i:5432/$w"
          ports:
            - containerPort: $n  # $s
              protocol: TCP
          resources:
            limits: {cpu: $dm, memory: $dMi}
"#;

const WORKFLOW: &str = r#"  $i:
    name: $s
    runs-on: ubuntu-latest
    if: github.event_name != '$w' && $w
    timeout-minutes: $d
    strategy:
      matrix:
        $k: [$d, $d, "$d.$d"]
    steps:
      # $s
      - uses: actions/checkout@v$d
      - name: $s
        uses: $w/$i@v$d
        with:
          $k: $v
          $k: ${{ matrix.$k }}
      - name: $s
        run: |
          set -eu
          ./$w --$k $v | grep -v "$w" > $i.txt
          if [ -s $i.txt ]; then
            echo "$s"
          fi
        env:
          TOKEN: ${{ secrets.TOKEN }}
"#;

const COMPOSE: &str = r#"  $i:
    image: $w/$i:$d.$d
    restart: unless-stopped
    depends_on:
      - $i
      - $i
    environment:
      $k: '$v'
      $k: $v
      $k_$w: "$s"
    ports:
      - "$n:$n"
    volumes:
      - ./$w/$k:/var/lib/$w:ro
    command: $w --$k=$v --$k $v
    healthcheck:
      test: ["CMD", "curl", "-f", "http://localhost:$n/$w"]
      interval: $ds

"#;

const PLAYBOOK: &str = r#"- name: $s
  hosts: $w
  become: true
  vars:
    $k: $v
    $k_$w: "{{ $k }}/$w"
  tasks:
    - name: $s
      ansible.builtin.template:
        src: $i.j2
        dest: /etc/$w/$i.conf
        mode: '0$d4'
      when: $k is defined and $k != "$w"
      notify: $s
    - name: $s
      ansible.builtin.shell: >
        $l
        $l
      register: $k
      tags: [$w, $k]

"#;

const CONFIGURATION: &str = r#"
# $l
# $s
$k_$n:
  enabled: true
  $k: $v
  $k: $v   # $s
  $k: "$s"
  $k: /$w/$w/$i.yml
  $k: https://$w.example.org:$n/$k
  $k:
    - $v
    - $v
    - $s
  $w:
    $k: $v
    $k: '$s'
    $k: $n
    description: |
      $l
      $s

      $l
"#;

/// How many kinds of settings there are.
pub const SETTINGS: usize = 5;

/// A kind of settings: manifests, workflows, compose files, playbooks and what a program is configured by.
pub fn settings(number: usize) -> kind_t {
    match number {
        0 => english(MANIFEST, 25),
        1 => between(
            "name: CI\non:\n  push:\n    branches: [main]\njobs:\n",
            WORKFLOW,
            "",
            25,
        ),
        2 => between("version: \"3.9\"\nservices:\n", COMPOSE, "", 40),
        3 => english(PLAYBOOK, 40),
        _ => english(CONFIGURATION, 40),
    }
}

const OBJECT: &str =
    r#"{"id":$n,"name":"$s","$k":$n.$d,"active":true,"tags":["$w","$w"],"$k":{"$k":null,"$k":[$d,$d,$d]}},"#;

const INDENTED: &str = r#"  {
    "id": $n,
    "$k": "$s",
    "$k": $n.$d,
    "$k": false,
    "tags": [
      "$w",
      "$w"
    ],
    "$k": {
      "$k": null,
      "$k": "https://$w.example.org/$w/$n"
    }
  },
"#;

const DOCUMENT: &str = r#"--- {"id": $n, "$k": "$w", "$k": $n, "$k": "$s", "$k": true, "at": $n}
"#;

const FLOW: &str = r#"- {x: $d, y: $d, to: $w, n: [$n, $d, $n]}
- {a: $d, b: $d, id: $n}
- [$n.$d, $n, $d, $n.$d, $n]
"#;

const SHORT: &str = r#"- id: $n
  $k: $w
  $k: $n
  at: $n.$d
  to: [$d, $d]
"#;

/// How many kinds of dense texts there are.
pub const DENSE: usize = 5;

/// A kind of dense texts: JSON on one line, indented, and a document a line; flow collections; short keys and values.
pub fn dense(number: usize) -> kind_t {
    match number {
        0 => between("[", OBJECT, "{}]\n", 160),
        1 => between("[\n", INDENTED, "  {}\n]\n", 90),
        2 => english(DOCUMENT, 250),
        3 => english(FLOW, 200),
        _ => english(SHORT, 300),
    }
}

const MESSAGES: &str = r#"    # $s
    $k_$d:
      title: $s
      $k: "$s"
      $k: "$s: %{name}\n$s"
      one: "%{count} $w"
      other: "%{count} $s"
      $k: '$s'
      help: >
        $l
        $l
      $k: $w
    $k: $s  # $w
"#;

const TERMS: &str = r#"$w: $w  # $w
$k: $w
$w: "$w"
"#;

/// How many kinds of translations there are.
pub const TRANSLATIONS: usize = 8;

fn messages(tongue: tongue_t, wide: bool) -> kind_t {
    kind_t {
        head: "xx:\n  messages:\n",
        block: MESSAGES,
        tail: "",
        tongue,
        wide,
        blocks: 40,
    }
}

fn terms(tongue: tongue_t, wide: bool) -> kind_t {
    kind_t {
        head: "",
        block: TERMS,
        tail: "",
        tongue,
        wide,
        blocks: 300,
    }
}

/// A kind of translations: messages in four tongues and lists of words in two, and of both also in UTF-16.
pub fn translations(number: usize) -> kind_t {
    match number {
        0 => messages(tongue_t::RUSSIAN, false),
        1 => messages(tongue_t::CHINESE, false),
        2 => messages(tongue_t::JAPANESE, false),
        3 => messages(tongue_t::FRENCH, false),
        4 => terms(tongue_t::CHINESE, false),
        5 => terms(tongue_t::RUSSIAN, true),
        6 => messages(tongue_t::CHINESE, true),
        _ => messages(tongue_t::RUSSIAN, true),
    }
}

const STACK: &str = r##"  $kA$d:
    Type: AWS::EC2::Instance
    DependsOn: $kB$d
    Properties:
      ImageId: !FindInMap [RegionMap, !Ref "AWS::Region", $k]
      InstanceType: !Ref $kC
      SubnetId: !GetAtt $kB$d.Id
      UserData: !Base64
        Fn::Sub: !Sub "#!/bin/sh $w ${AWS::StackName} $s"
      Tags:
        - Key: Name
          Value: !Sub "${AWS::StackName}-$i"
        - Key: $k
          Value: !Join ["-", [!Ref $kC, $w]]
"##;

const HOME: &str = r#"$k_$n: !include $w/$i.yaml
$k: !secret $k_$w
$w: !include_dir_merge_named $w/
automation $d: !include $k.yaml
"#;

const ANCHORS: &str = r#"$k_$n: &$k$n
  $k: &$w $v
  image: *$w
  <<: *$k
  $k: *$w
$i:
  <<: [*$k, *$w]
  $k: $v
"#;

const TAGGED: &str = r#"- &id$n !!python/object:app.$w.$k
  $k: !!str $n
  $k: !<tag:yaml.org,2002:int> $n
  $k: !!binary |
    R0lGODlhDAAMAIQAAP$n
  parent: *id$n
- !local &$w $w
- *id$n
"#;

/// How many kinds of templates there are.
pub const TEMPLATES: usize = 4;

/// A kind of templates: tags, aliases and anchors.
pub fn templates(number: usize) -> kind_t {
    match number {
        0 => between("Resources:\n", STACK, "", 45),
        1 => english(HOME, 160),
        2 => english(ANCHORS, 160),
        _ => english(TAGGED, 110),
    }
}

const ESCAPED: &str = r#"- "$e"
- '$q'
- $k: "$e"
"#;

const PLAIN_LINES: &str = r#"$k$n: $s
  $s
  $s
$k: $l

  $l
  $s
"#;

const QUOTED_LINES: &str = r#"- "$l
  $s \
  $s"
- '$l

  $s'
"#;

const COMMENTS: &str = r#"# $l $l
#   $l
#
# $l $l $l
$k: $v  # $l
"#;

const ENTRIES: &str = r#"- - - $w
    - - $d
- - ? $w
    : $d
"#;

const BRACKETS: &str = r#"[[{[ [$w], [[{a: [$d
"#;

const LONG_KEYS: &str = r#"$l $l $l $l $l $l $l $l $l $l $l $l: $v
"$l $l $l $l $l $l $l $l $l $l $l $l": $v
"#;

/// How many awkward kinds there are.
pub const AWKWARD: usize = 9;

/// An awkward kind: short texts of escapes, one long one, scalars over several lines, comments, nested entries,
/// brackets that are never closed, keys near the limit, and settings that are refused at the end.
pub fn awkward(number: usize) -> kind_t {
    match number {
        0 => english(ESCAPED, 200),
        1 => between("- \"", "$e ", "\"\n", 600),
        2 => english(PLAIN_LINES, 120),
        3 => english(QUOTED_LINES, 120),
        4 => english(COMMENTS, 100),
        5 => english(ENTRIES, 800),
        6 => english(BRACKETS, 1000),
        7 => english(LONG_KEYS, 20),
        _ => between("", CONFIGURATION, "last: \"not closed\n", 40),
    }
}
