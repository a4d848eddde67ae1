// Laws that more than one crate cites, on lists, tests, tables and texts, and the small words that the specifications are
// written in. No function stands here. It promises nothing about CERTIS and stands on the toolchain's libraries alone.
#![tactic(auto)]
