// The access that PEXT needs: V with SVE2p1, else S.
ghost use Rattle.std.specs.Prelude.{◌≡◌};
ghost use Rattle.setting.specs.Numbers.{refusal_number};
ghost use Rattle.setting.specs.Allowed.{has_feature};
ghost use Rattle.setting.specs.declared.Feature.TheVariants.{Sve2p1};
ghost use Rattle.logic.specs.Pick.{pick};

use setting::{Feature, Refusal};

pub(crate) fn open(features: u32, v: bool, s: bool) -> bool
    ensures { result ≡ pick (has_feature features Sve2p1) v s }
{
    if setting::has_feature(features, Feature::Sve2p1) {
        v
    } else {
        s
    }
}

// What a word without it is refused for.
pub(crate) fn closed(features: u32) -> Refusal
    ensures { refusal_number result ≡ pick (has_feature features Sve2p1) 4 5 }
{
    if setting::has_feature(features, Feature::Sve2p1) {
        Refusal::VectorsClosed
    } else {
        Refusal::StreamingClosed
    }
}
