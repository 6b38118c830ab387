// The builder's own rules, which drop what is no flow: specs/Encoding.antt has them as `flow_words`.
#![tactic(auto, unfolding(crate::specs::Encoding::flow_words))]

ghost use Rattle.std.specs.Prelude.{◌≡◌, ◌++◌, take, drop};
ghost use Rattle.builder.specs.Encoding.{flow_words};

use crate::{BASE, RULE_LEN, RULES, Work};

// Writes them in front of the caller's rules.
pub fn put_flow_rules(work: &mut Work)
    ensures { work.new ≡ (take 64 work.old ++ flow_words) ++ drop 169 work.old }
{
    work[RULES..RULES + 5 * RULE_LEN].copy_from_slice(FLOW_RULES.as_flattened());
}

// No value, the remote as opener, and all addresses.
const EMPTY: u64 = BASE;

const REMOTE: u64 = BASE + 1;

const ALL: u64 = BASE - 1;

// All ports, and those that are not 0.
const PORTS: u64 = 65535;

const FROM_1: u64 = BASE + 65535;

// Protocols, between and above 6 and 17.
const FROM_7: u64 = 7 * BASE + 255;

const TO_16: u64 = 7 * BASE + 16;

const FROM_18: u64 = 18 * BASE + 255;

const FLOW_RULES: [[u64; RULE_LEN]; 5] = [
    [
        0, 1, EMPTY, 5, FROM_7, REMOTE, EMPTY, ALL, EMPTY, PORTS, EMPTY, PORTS, EMPTY, 0, 0, 0, 0,
        0, 0, 0, 0,
    ],
    [
        0, 1, EMPTY, 5, TO_16, 1, EMPTY, ALL, EMPTY, FROM_1, EMPTY, PORTS, EMPTY, 0, 0, 0, 0, 0, 0,
        0, 0,
    ],
    [
        0, 1, EMPTY, 5, TO_16, 1, EMPTY, ALL, EMPTY, PORTS, EMPTY, FROM_1, EMPTY, 0, 0, 0, 0, 0, 0,
        0, 0,
    ],
    [
        0, 1, EMPTY, FROM_18, EMPTY, 1, EMPTY, ALL, EMPTY, FROM_1, EMPTY, PORTS, EMPTY, 0, 0, 0, 0,
        0, 0, 0, 0,
    ],
    [
        0, 1, EMPTY, FROM_18, EMPTY, 1, EMPTY, ALL, EMPTY, PORTS, EMPTY, FROM_1, EMPTY, 0, 0, 0, 0,
        0, 0, 0, 0,
    ],
];
