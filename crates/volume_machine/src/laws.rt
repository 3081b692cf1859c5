// What follows of single events.

ghost use Rattle.volume_machine.specs.Effects.{Effects};
ghost use Rattle.volume_machine.specs.Events.{Event, Outcome};
ghost use Rattle.volume_machine.specs.Sound.{IsSound};
ghost use Rattle.volume_machine.specs.States.{State};
ghost use Rattle.volume_machine.specs.Steps.{Step, Meets};
ghost use Rattle.volume_machine.specs.declared.keys.Keys.{Keys};

use cipher_laws::SectorCipher;

/// What an event leaves of the map, the keys, the table of locks, the lanes and the disk.
pub fn events_have_effects<C: SectorCipher>()
    ensures { (old new : State (Keys C)) (event : Event) (outcome : Outcome) →
        Step old event outcome new → Effects event outcome old new }
{}

/// What holds of a volume between events holds after each event that meets its conditions.
pub fn volumes_stay_sound<C: SectorCipher>()
    ensures { (old new : State (Keys C)) (event : Event) (outcome : Outcome) →
        IsSound old → Meets old event → Step old event outcome new → IsSound new }
{}
