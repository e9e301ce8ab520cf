//! What the definitions allow and what they refuse.
ghost use Rattle.std.specs.Prelude.{◌≡◌, ◌<◌, ◌^◌, ◌++◌, ℕ, List, None, true, length, take};
ghost use Rattle.grove_log.specs.Devices.{Torn};
ghost use Rattle.grove_log.specs.Files.{reading_of};
ghost use Rattle.grove_log.specs.Frames.{digest, size, size_at, frame};
ghost use Rattle.grove_log.specs.Readings.{is_damaged};

/// A crash that leaves a front of a frame is one that a device may make: what is asked of other bytes in a frame's
/// place isn't asked of these.
pub fn crash_laws()
    ensures front { (file payload : List ℕ) (n : ℕ) → length payload < 2 ^ 32
        → Torn (frame (reading_of file).seal payload) file (file ++ take n (frame (reading_of file).seal payload)) }
{}

/// A frame is taken for a damaged one, and not for a torn one, where one of its three parts is another and a whole
/// frame stands behind it.
pub fn damage_laws()
    ensures payload { (before payload other next rest : List ℕ) → length other ≡ length payload
        → length payload < 2 ^ 32 → length next < 2 ^ 32 → is_damaged before (size (length payload)
        ++ (other ++ (digest before payload ++ (frame (digest before payload) next ++ rest)))) ≡ true }
    ensures digest { (before payload other next rest : List ℕ) → length other ≡ 32
        → length payload < 2 ^ 32 → length next < 2 ^ 32 → is_damaged before (size (length payload)
        ++ (payload ++ (other ++ (frame (digest before payload) next ++ rest)))) ≡ true }
    ensures size { (before payload other next rest : List ℕ) → length next < 2 ^ 32
        → size_at (other ++ (payload ++ (digest before payload ++ (frame (digest before payload) next ++ rest)))) ≡ None
        → is_damaged before (other
        ++ (payload ++ (digest before payload ++ (frame (digest before payload) next ++ rest)))) ≡ true }
{}
