// Laws of images. They do nothing: their contracts are the laws.
ghost use Rattle.std.specs.Prelude.{◌≡◌, ◌⊎◌, ℕ, Bool, List, [], Option, Some};
ghost use Rattle.vs_host.specs.File.{File, IsFileImage, WritesSome};
ghost use Rattle.vs_host.specs.Disk.{Disk, Name, Change, ChangesNames, IsImage};
ghost use Rattle.vs_disk.specs.Images.{IsImageNow, IsSynced, Torn};
ghost use Rattle.vs_disk.specs.Names.{IsImageAt, part_of, NoneLinked};

/// The law of restriction: of the names of a set, a stop leaves of their part of the folder just what it leaves of the whole,
/// where no pending rename leads from a name of the set to one outside or back.
pub fn restriction()
    ensures part { (inside : Name → Bool) (disk : Disk) (image : Name → Option (List ℕ)) → NoneLinked inside disk.pending
        → IsImageAt inside (part_of inside disk) image → IsImageAt inside disk image }
    ensures whole { (inside : Name → Bool) (disk : Disk) (image : Name → Option (List ℕ)) → NoneLinked inside disk.pending
        → IsImageAt inside disk image → IsImageAt inside (part_of inside disk) image }
{}

/// What a stop leaves after a call is what it left before, or what the call made: after a name change an image of before or one
/// under the names as they are now, and after a write, whatever it answered, an image of before that is torn in its range.
pub fn after_a_call()
    ensures names { (change : Change) (old new : Disk) (image : Name → Option (List ℕ)) → ChangesNames change old new
        → IsImage new image → IsImage old image ⊎ IsImageNow new image }
    ensures write { (at n : ℕ) (old new : File) (c : List ℕ) → WritesSome at n old new
        → IsFileImage new c → (d : List ℕ) × IsFileImage old d × Torn at n d c }
{}

/// A synced file under synced names is the same in every image.
pub fn synced_lasts()
    ensures { (name : Name) (bytes : List ℕ) (disk : Disk) (image : Name → Option (List ℕ)) → disk.pending ≡ [] → IsSynced name bytes disk
        → IsImage disk image → image name ≡ Some bytes }
{}
