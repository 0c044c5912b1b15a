//! A store is opened.
ghost use Rattle.std.specs.Prelude.{◌≡◌, ◌≤◌, [], IfOk, IfErr, length, replicate};
ghost use Rattle.manifest.specs.Manifest.{IsManifestOf};
ghost use Rattle.published_index.specs.Cover.{journal_of};
ghost use Rattle.published_index.specs.Places.{HasDrawn};
ghost use Rattle.published_index.specs.States.{watching};
ghost use Rattle.ingest_desk.specs.Stored.{stored_by};

use crate::ingest::Ingest;
use crate::register::Register;
use disk_model::Disk;
use manifest::Manifest;
use published_index::{Drawer, Index, List, Pass, open_list};
use record_log::Back;
use std::alloc::{AllocError, Global};
use std::marker::Model;
use std::sync::Wait;

/// What a store has once a type names its index.
pub type Named<D, J> = (Ingest<D, J>, Vec<Pass<J>>, Drawer<J>);

/// An ingest with its passes, of an index that no type names yet. It is not `Drop`: end it by
/// `into_disk`.
pub struct Unnamed<D: Disk> {
    pub(crate) manifest: Manifest<D>,
    pub(crate) register: Register,
    pub(crate) index: published_index::Unnamed,
}

impl<D: Disk> Model for Unnamed<D> {
    ghost use Rattle.ingest_desk.specs.Stored.{Nameless};

    ghost Value = { Nameless D };

    ghost use Rattle.std.specs.Prelude.{None};
    ghost use Rattle.published_index.specs.States.{publishing};
    ghost use Rattle.ingest_desk.specs.Kept.{IsKept};

    ghost view = { λ u. record { manifest = u.manifest; index = u.index } };

    ghost invariant = { λ u. IsKept D.disk D.left_since u.manifest (publishing u.index.list)
        u.register None };
}

impl<D: Disk> Unnamed<D> {
    /// The ingest, the passes, and the drawer that drew the places of the journal's batches, of the
    /// index whose name this one has. It is as before where there is no room for the passes.
    pub fn named<J: Index>(self, alloc: Global) -> Result<Named<D, J>, Unnamed<D>>
        requires { self.index.name ≡ J.name }
        ensures ingest { IfOk result (λ named. named.0 ≡ stored_by self) }
        ensures passes { IfOk result (λ named. named.1.items
            ≡ replicate self.index.readers (watching (journal_of self.index.list))) }
        ensures drawer { IfOk result
            (λ named. HasDrawn (length (journal_of self.index.list)) named.2) }
        ensures back { IfErr result (λ unnamed. unnamed ≡ self) }
    {
        let Unnamed {
            manifest,
            register,
            index,
        } = self;
        match index.named::<J>(alloc) {
            Ok((publisher, passes, drawer)) => {
                let ingest = Ingest {
                    manifest,
                    publisher,
                    register,
                    failed: None,
                };
                Ok((ingest, passes, drawer))
            }
            Err(index) => Err(Unnamed {
                manifest,
                register,
                index,
            }),
        }
    }

    /// Ends the index, and gives the disk back. It waits for the readers that are inside.
    pub fn into_disk<R: Wait>(self, rt: &R) -> D
        ensures { result ≡ self.manifest.disk }
    {
        let Unnamed {
            manifest,
            register: _register,
            index,
        } = self;
        index.close(rt);
        manifest.into_disk()
    }
}

/// An ingest of a new store, with so many passes.
pub fn fresh<R: Wait, D: Disk>(
    rt: &R,
    alloc: Global,
    manifest: Manifest<D>,
    readers: usize,
) -> Result<Unnamed<D>, Back<D, AllocError>>
    requires empty { IsManifestOf D.disk D.left_since [] manifest }
    requires some { 1 ≤ readers }
    requires few { readers ≤ 64 }
    ensures manifest { IfOk result (λ unnamed. unnamed.manifest ≡ manifest) }
    ensures list { IfOk result (λ unnamed. unnamed.index.list ≡ []) }
    ensures readers { IfOk result (λ unnamed. unnamed.index.readers ≡ readers) }
    ensures back { IfErr result (λ back. back.disk ≡ manifest.disk) }
{
    let list = List::of(Vec::new(alloc));
    match open_list(rt, alloc, list, readers) {
        Ok(index) => Ok(Unnamed {
            manifest,
            register: Register::new(alloc),
            index,
        }),
        Err(fault) => Err(Back {
            disk: manifest.into_disk(),
            fault,
        }),
    }
}
