//! A ROSpec that a reader keeps. This file names no definition about a reader's table.

use super::parsed::Settings;
use llrp_tree::Node;
use std::marker::Model;

/// A ROSpec, with the numbers that were read in it. Contracts see what the definitions read in it.
#[derive(Drop)]
pub struct RoSpec {
    pub(super) spec: Node,
    pub(super) settings: Settings,
}

impl Model for RoSpec {
    ghost use Rattle.std.specs.Prelude.{◌≡◌};
    ghost use Rattle.std.specs.Coded.{codes};
    ghost use Rattle.llrp_tree.specs.Private.Stored.{tree_code};
    ghost use Rattle.llrp_schema.specs.declared.kinds.ParamKind.TheVariants as kinds;
    ghost use Rattle.llrp_session.specs.RoSpec.{RoSpec as RoSpecValue, rospec_of};
    ghost use Rattle.llrp_session.specs.Private.Settings.{settings_of};

    ghost Value = { RoSpecValue };

    ghost coded = { Prim.hlevel (codes, tree_code) };

    ghost view = { λ a. rospec_of a.spec };

    ghost invariant = { λ a. (a.spec.kind ≡ kinds.RoSpec)
        × (a.settings ≡ settings_of (rospec_of a.spec)) };
}
