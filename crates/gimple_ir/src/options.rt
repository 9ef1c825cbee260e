//! Which passes run, and by which parameters.

/// Whether each pass is on. `bit_cp`, `vrp` and `cp_clone` have no effect without `cp`.
#[derive(Clone, Copy, Debug, PartialEq, Eq)]
pub struct Passes {
    pub cp: bool,
    pub cp_clone: bool,
    pub bit_cp: bool,
    pub vrp: bool,
    pub sra: bool,
    pub modref: bool,
    pub icf: bool,
}

/// The values of the `--param` words, each named as its parameter with `_` for `-`.
#[derive(Clone, Copy, Debug, PartialEq, Eq)]
pub struct Params {
    pub ipa_cp_value_list_size: u64,
    pub ipa_cp_eval_threshold: u64,
    pub ipa_cp_unit_growth: u64,
    pub ipa_cp_large_unit_insns: u64,
    pub ipa_max_agg_items: u64,
    pub ipa_sra_max_replacements: u64,
    pub ipa_sra_ptr_growth_factor: u64,
    pub ipa_sra_unit_growth: u64,
    pub modref_max_bases: u64,
    pub modref_max_refs: u64,
    pub modref_max_accesses: u64,
}
