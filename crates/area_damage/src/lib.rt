// Damage in four numbers, as a reading of areas finds it, stretch by stretch and area by area (T-08).
#![tactic(auto)]

ghost use Rattle.std.specs.Prelude.{◌≡◌};
ghost use Rattle.area_damage.specs.Damage.{with_stretch, joined_with, Fewer, Summable};

// Damage, by default none: how many stretches, their bytes, and offset and length of one of the stretches, both 0 where there are not so many.
#[derive(Clone, Copy, Default)]
pub struct Damage {
    pub stretches: u32,
    pub skipped: u32,
    pub offset: u32,
    pub length: u32,
}

impl Damage {
    // The damage with the `size` bytes at `at` behind it, if any; the stretch kept is number `stretch`, from 0.
    #[tactic(auto, unfolding(crate::specs::Damage::with_stretch))]
    pub fn with_stretch(self, stretch: u32, at: usize, size: usize) -> Damage
        requires { Fewer self at size }
        ensures { result ≡ with_stretch stretch self at size }
    {
        if size == 0 {
            return self;
        }
        let more = Damage {
            stretches: self.stretches + 1,
            skipped: self.skipped + size as u32,
            ..self
        };
        if self.stretches == stretch {
            return Damage {
                offset: at as u32,
                length: size as u32,
                ..more
            };
        }
        more
    }

    // The damage of areas, with that of the area at `base` behind it. The stretch kept is the first of the first area of the list that has any, at
    // its offset in the image.
    #[tactic(auto, unfolding(crate::specs::Damage::joined_with))]
    pub fn joined(self, base: u32, area: Damage) -> Damage
        requires { Summable self base area }
        ensures { result ≡ joined_with self base area }
    {
        if area.stretches == 0 {
            return self;
        }
        let more = Damage {
            stretches: self.stretches + area.stretches,
            skipped: self.skipped + area.skipped,
            ..self
        };
        if self.stretches == 0 {
            return Damage {
                offset: base + area.offset,
                length: area.length,
                ..more
            };
        }
        more
    }
}
