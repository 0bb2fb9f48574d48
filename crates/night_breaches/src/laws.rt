ghost use Rattle.night_breaches.specs.Sound.{SoundNightsGoOn};

/// Sound nights continue from one another.
pub fn sound_nights_go_on()
    ensures { SoundNightsGoOn }
{}
