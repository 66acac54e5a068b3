//! Types, regions and constants: the handles of nodes.
ghost use Rattle.std.proofs.Common.{refl};
ghost use Rattle.ir_nodes.specs.Views.{const_node, region_node, ty_node};

use crate::{Intern, Live};
use ir_core::{Const, ConstKind, Region, RegionKind, Ty, TyKind};
use ir_nodes::{Node, const_node, const_of, region_node, region_of, ty_node, ty_of};

impl Live for Ty {}

impl Intern for Ty {
    type Kind = TyKind;

    ghost view = { ty_node };

    ghost is_node = { refl };

    fn to_node(kind: TyKind) -> Node {
        ty_node(kind)
    }

    fn to_kind(node: Node) -> TyKind {
        ty_of(node)
    }
}

impl Live for Region {}

impl Intern for Region {
    type Kind = RegionKind;

    ghost view = { region_node };

    ghost is_node = { refl };

    fn to_node(kind: RegionKind) -> Node {
        region_node(kind)
    }

    fn to_kind(node: Node) -> RegionKind {
        region_of(node)
    }
}

impl Live for Const {}

impl Intern for Const {
    type Kind = ConstKind;

    ghost view = { const_node };

    ghost is_node = { refl };

    fn to_node(kind: ConstKind) -> Node {
        const_node(kind)
    }

    fn to_kind(node: Node) -> ConstKind {
        const_of(node)
    }
}
