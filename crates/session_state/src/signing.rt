ghost use Rattle.std.specs.Prelude.{◌≡◌, ◌+◌};
ghost use Rattle.session_state.specs.Signing.{CanFollowBack, CanFollowForth, followed_back, followed_forth};
ghost use Rattle.session_state.specs.Kinds.{of_generators, puts, takes};

use crate::edit::Edit;
use hashcons::Store;
use typecheck::Signature;

/// Takes from the signature the generator that an edit takes.
pub(crate) fn follow_back(signature: &mut Signature, edit: &Edit)
    requires { CanFollowBack signature.old edit.now }
    ensures entries { signature.new.entries ≡ followed_back signature.old.entries edit.now }
    ensures spare { signature.new.spare ≡ signature.old.spare + takes of_generators edit.now }
{
    if let Edit::TakeGenerator = edit {
        signature.remove_last();
    }
}

/// Puts the generator that an edit brings back into the signature.
pub(crate) fn follow_forth(signature: &mut Signature, store: &Store, edit: &Edit)
    requires { CanFollowForth store.now signature.old edit.now }
    ensures entries { signature.new.entries ≡ followed_forth store.now signature.old.entries edit.now }
    ensures spare { signature.new.spare + puts of_generators edit.now ≡ signature.old.spare }
{
    if let Edit::PutGenerator { generator, .. } = edit {
        signature.put_back(store, generator.boundary);
    }
}
