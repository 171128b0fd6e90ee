//! Nothing is made of the nodes.
ghost use Rattle.std.specs.Prelude.{⊤};

use crate::builder::{Build, Leaf, Node};
use crate::runs::ahead::{content_ahead, part_ahead, short_ahead};
use crate::runs::content::whole_ahead;
use crate::runs::leaf::{is_leaf, leaf_ahead};
use crate::runs::sort::is_short;
use std::alloc::AllocError;
use xdr_types::{Kind, KindId, Schema};

/// Makes nothing of the nodes.
#[derive(Clone, Copy)]
pub struct Nothing;

impl Build for Nothing {
    ghost reports = { λ _ _. ⊤ };

    ghost spares = { ⊤ };

    #[inline(always)]
    fn leaf(&mut self, _: Leaf) -> Result<(), AllocError> {
        Ok(())
    }

    fn numbers(&mut self, _: bool, _: &[u8]) -> Result<(), AllocError> {
        Ok(())
    }

    fn hypers(&mut self, _: bool, _: &[u8]) -> Result<(), AllocError> {
        Ok(())
    }

    #[inline(always)]
    fn open(&mut self, _: Node) -> Result<(), AllocError> {
        Ok(())
    }

    #[inline(always)]
    fn close(&mut self) -> Result<(), AllocError> {
        Ok(())
    }

    #[inline(always)]
    fn extend(&mut self, _: &[u8]) -> Result<(), AllocError> {
        Ok(())
    }

    #[inline(always)]
    fn content(&mut self) -> Result<(), AllocError> {
        Ok(())
    }

    #[inline(always)]
    fn whole(&mut self, _: &[u8]) -> Result<(), AllocError> {
        Ok(())
    }

    #[inline(always)]
    fn tries(&self, schema: &Schema, kind: KindId, there: usize) -> bool {
        match schema.extent(kind) {
            Some(extent) => {
                extent.bytes as usize <= there && (extent.free || schema.decided(kind).is_some())
            }
            None => false,
        }
    }

    #[inline(always)]
    fn part(
        &mut self,
        schema: &Schema,
        kind: KindId,
        levels: u32,
        bytes: &[u8],
    ) -> Result<usize, AllocError> {
        if levels == 0 {
            return Ok(0);
        }
        if let Some((_, size)) = leaf_ahead(schema, kind, bytes) {
            return Ok(size);
        }
        if is_leaf(schema.kind(kind)) {
            return Ok(0);
        }
        match part_ahead(schema, kind, bytes, levels) {
            Some(n) => Ok(n),
            None => Ok(0),
        }
    }

    #[inline(always)]
    fn field(
        &mut self,
        schema: &Schema,
        kind: KindId,
        levels: u32,
        bytes: &[u8],
    ) -> Result<usize, AllocError> {
        match schema.kind(kind) {
            Kind::OpaqueUpTo { .. } | Kind::Text { .. } => match whole_ahead(schema, kind, bytes) {
                Some(whole) => Ok(whole.all),
                None => Ok(0),
            },
            Kind::Choice { .. } | Kind::Maybe { .. } if is_short(schema, kind, levels) => {
                match short_ahead(schema, kind, bytes, levels) {
                    Some(n) => Ok(n),
                    None => Ok(0),
                }
            }
            Kind::Opaque { size } => match content_ahead(*size, bytes) {
                Some(n) => Ok(n),
                None => Ok(0),
            },
            Kind::UpTo { .. } => match short_ahead(schema, kind, bytes, levels) {
                Some(n) => Ok(n),
                None => Ok(0),
            },
            _ => match leaf_ahead(schema, kind, bytes) {
                Some((_, n)) => Ok(n),
                None => Ok(0),
            },
        }
    }

    fn trim(&mut self) {}

    fn clear(&mut self) {}
}
