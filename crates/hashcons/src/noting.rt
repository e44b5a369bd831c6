ghost use Rattle.std.specs.Prelude.{◌≡◌, IfSome, IsSome, IsTrue, OnOk, OnErr, Some, nat_eq, option_map};
ghost use Rattle.hashcons.specs.Contents.{IsStore, IsIdentityOf, IsCompositeOf, IsValidDiagram, IsValidTriple, IsNormalOf, NotesMore, HasMore, Grows, same_pair, same_triple, same_key, noted_identity, noted_composite, noted_valid, noted_valid_map, noted_normal, with_identities, with_composites, with_valid, with_valid_maps, with_normals};
ghost use Rattle.hashcons.specs.NoteTables.{key_of, normal_of};

use crate::id::{ArrowId, DiagramId};
use crate::notes::{KnownNormal, NormalKey};
use crate::store::Store;
use std::alloc::AllocError;

impl Store {
    /// The identity arrow of `d`, where it is noted.
    pub fn known_identity(&self, d: DiagramId) -> Option<ArrowId>
        ensures value { result ≡ noted_identity self.now d }
        ensures right { IfSome result (IsIdentityOf self.now d) }
        ensures store { IsStore self.now }
    {
        self.notes.identities.get(&d).copied()
    }

    /// Notes the identity arrow of a diagram. Where it is noted, nothing changes.
    pub fn note_identity(&mut self, d: DiagramId, identity: ArrowId) -> Result<(), AllocError>
        requires { IsIdentityOf self.old d identity }
        ensures more { OnOk result (NotesMore nat_eq self.old.notes.identities self.new.notes.identities d identity) }
        ensures others { self.new ≡ with_identities self.old self.new.notes.identities }
        ensures already { IsSome (noted_identity self.old d) → self.new ≡ self.old }
        ensures noted { OnOk result (noted_identity self.new d ≡ Some identity) }
        ensures grows { Grows self.old self.new }
        ensures err { OnErr result (self.new ≡ self.old) }
    {
        self.notes.identities.insert(d, identity)?;
        Ok(())
    }

    /// The composite of `g` after `f`, where it is noted.
    pub fn known_composite(&self, g: ArrowId, f: ArrowId) -> Option<ArrowId>
        ensures value { result ≡ noted_composite self.now g f }
        ensures right { IfSome result (IsCompositeOf self.now g f) }
        ensures store { IsStore self.now }
    {
        self.notes.composites.get(&(g, f)).copied()
    }

    /// Notes the composite of two arrows. Where it is noted, nothing changes.
    pub fn note_composite(
        &mut self,
        g: ArrowId,
        f: ArrowId,
        made: ArrowId,
    ) -> Result<(), AllocError>
        requires { IsCompositeOf self.old g f made }
        ensures more { OnOk result (NotesMore same_pair self.old.notes.composites self.new.notes.composites (g, f) made) }
        ensures others { self.new ≡ with_composites self.old self.new.notes.composites }
        ensures already { IsSome (noted_composite self.old g f) → self.new ≡ self.old }
        ensures noted { OnOk result (noted_composite self.new g f ≡ Some made) }
        ensures grows { Grows self.old self.new }
        ensures err { OnErr result (self.new ≡ self.old) }
    {
        self.notes.composites.insert((g, f), made)?;
        Ok(())
    }

    /// Whether `d` is noted as a valid diagram.
    pub fn known_valid(&self, d: DiagramId) -> bool
        ensures value { result ≡ noted_valid self.now d }
        ensures right { IsTrue result → IsValidDiagram self.now d }
        ensures store { IsStore self.now }
    {
        self.notes.valid.contains(&d)
    }

    /// Notes a diagram as valid. Where it is noted, nothing changes.
    pub fn note_valid(&mut self, d: DiagramId) -> Result<(), AllocError>
        requires { IsValidDiagram self.old d }
        ensures more { OnOk result (HasMore nat_eq self.old.notes.valid self.new.notes.valid d) }
        ensures others { self.new ≡ with_valid self.old self.new.notes.valid }
        ensures already { IsTrue (noted_valid self.old d) → self.new ≡ self.old }
        ensures noted { OnOk result (IsTrue (noted_valid self.new d)) }
        ensures grows { Grows self.old self.new }
        ensures err { OnErr result (self.new ≡ self.old) }
    {
        self.notes.valid.insert(d)?;
        Ok(())
    }

    /// Whether an arrow is noted as valid from `source` to `target`, both valid diagrams.
    pub fn known_valid_map(&self, source: DiagramId, target: DiagramId, arrow: ArrowId) -> bool
        ensures value { result ≡ noted_valid_map self.now source target arrow }
        ensures right { IsTrue result → IsValidTriple self.now source target arrow }
        ensures store { IsStore self.now }
    {
        self.notes.valid_maps.contains(&(source, target, arrow))
    }

    /// Notes an arrow as valid between valid diagrams. Where it is noted, nothing changes.
    pub fn note_valid_map(
        &mut self,
        source: DiagramId,
        target: DiagramId,
        arrow: ArrowId,
    ) -> Result<(), AllocError>
        requires { IsValidTriple self.old source target arrow }
        ensures more { OnOk result (HasMore same_triple self.old.notes.valid_maps self.new.notes.valid_maps (source, target, arrow)) }
        ensures others { self.new ≡ with_valid_maps self.old self.new.notes.valid_maps }
        ensures already { IsTrue (noted_valid_map self.old source target arrow) → self.new ≡ self.old }
        ensures noted { OnOk result (IsTrue (noted_valid_map self.new source target arrow)) }
        ensures grows { Grows self.old self.new }
        ensures err { OnErr result (self.new ≡ self.old) }
    {
        self.notes.valid_maps.insert((source, target, arrow))?;
        Ok(())
    }

    /// The normal form that is noted for a key: the least degeneracy for its target and its legs,
    /// with the factors of the legs.
    pub fn known_normal(&self, key: &NormalKey) -> Option<&KnownNormal>
        ensures value { option_map (λ made. normal_of made.now) result ≡ noted_normal self.now (key_of key.now) }
        ensures right { IfSome result (λ made. IsNormalOf self.now (key_of key.now) (normal_of made.now)) }
        ensures store { IsStore self.now }
    {
        self.notes.normals.get(key)
    }

    /// Notes the normal form for a key. Where one is noted, nothing changes.
    pub fn note_normal(&mut self, key: NormalKey, made: KnownNormal) -> Result<(), AllocError>
        requires { IsNormalOf self.old (key_of key) (normal_of made) }
        ensures more { OnOk result (NotesMore same_key self.old.notes.normals self.new.notes.normals (key_of key) (normal_of made)) }
        ensures others { self.new ≡ with_normals self.old self.new.notes.normals }
        ensures already { IsSome (noted_normal self.old (key_of key)) → self.new ≡ self.old }
        ensures noted { OnOk result (IsSome (noted_normal self.new (key_of key))) }
        ensures grows { Grows self.old self.new }
        ensures err { OnErr result (self.new ≡ self.old) }
    {
        if self.notes.normals.contains_key(&key) {
            return Ok(());
        }
        self.notes.normals.insert(key, made)?;
        Ok(())
    }
}
