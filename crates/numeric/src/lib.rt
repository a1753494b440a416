// Weights of the terms of a threshold: numeric.rs's `Threshold`, and those of document 01's areas.
#![tactic(auto)]

ghost use Rattle.std.specs.Prelude.{◌≡◌};
ghost use Rattle.numeric.specs.Area.{weight_of_area};

// The weight of areas that add up to so many hundredths of a square centimetre: rounded to the nearest whole, a half going up.
pub fn weight_of_area(area: u64) -> u64
    ensures { result ≡ weight_of_area area }
{
    let whole = area / 100;
    if area % 100 < 50 {
        return whole;
    }
    whole + 1
}
