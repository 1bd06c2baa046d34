// No code: swapping a cylinder's ends, mirroring it in x or in y, or half a turn about the spindle
// keeps what its query and its verdict answer (specs/Alike.antt says what that is,
// proofs/Queries.antt and proofs/Verdicts.antt show it).
#![tactic(auto)]
