// The flag that chooses the setting.

ghost use Rattle.std.specs.Prelude.{◌≡◌};
ghost use Rattle.plotting.specs.Choice.{chosen_of};

use point::Setting;

pub fn chosen(flag: &[u8]) -> Option<Setting>
    ensures { result ≡ chosen_of flag.now }
{
    if flag == b"--knife".as_slice() {
        return Some(Setting::Knife);
    }
    if flag == b"--screen".as_slice() {
        return Some(Setting::Screen);
    }
    None
}
