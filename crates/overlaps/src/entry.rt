// Which entries of a list can be compared.
ghost use Rattle.std.specs.Prelude.{◌≡◌};
ghost use Rattle.definitions.specs.Channel.{is_sound_number};
ghost use Rattle.fields.specs.Meaning.{channel_meant};

use fields::{Channel, Form, form_of, is_well_described};

// A number in the record itself that has a value in every record which is long enough
pub(crate) fn is_sound_number(channel: Channel) -> bool
    ensures { result ≡ is_sound_number (channel_meant channel) }
{
    let data_type = channel.data_type;
    let Form::Number(number, _) = form_of(data_type) else {
        return false;
    };
    if channel.is_variable_length() {
        return false;
    }
    is_well_described(number, channel)
}
