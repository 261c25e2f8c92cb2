//! An inquiry: a setting that can be asked for, and the form of its answer.

ghost use Rattle.std.specs.Prelude.{◌≡◌, Some};
ghost use Rattle.rows.specs.Forms.{form_of};

use head::Setting;

/// How an inquiry is answered.
#[derive(Clone, Copy, PartialEq, Eq, Debug)]
pub enum Form {
    /// `0p`
    Digit,
    /// `00 00 0p 0q`
    Level,
    /// Four digits.
    Number,
    /// Eight digits, or an error where there is no pan and tilt.
    PanTilt,
}

/// What is asked: a setting, and the form of the answer, which is that of the setting and no other.
#[derive(Clone, Copy, Debug, PartialEq, Eq)]
pub struct Inquiry {
    pub setting: Setting,
    pub form: Form,
    ghost fits: { form_of setting ≡ Some form },
}

impl Form {
    /// The form in which a setting is answered, if it can be asked for.
    #[inline(always)]
    pub fn of(setting: Setting) -> Option<Form>
        ensures { result ≡ form_of setting }
    {
        match setting {
            Setting::Power
            | Setting::FocusMode
            | Setting::WhiteBalance
            | Setting::ExposureMode
            | Setting::Freeze
            | Setting::Mute
            | Setting::Infrared => Some(Form::Digit),
            Setting::RedGain
            | Setting::BlueGain
            | Setting::Shutter
            | Setting::Iris
            | Setting::Gain
            | Setting::Bright => Some(Form::Level),
            Setting::Zoom | Setting::Focus | Setting::Identity => Some(Form::Number),
            Setting::Pan => Some(Form::PanTilt),
            _ => None,
        }
    }
}

impl Inquiry {
    ghost use Rattle.rows.specs.Inquiries.{inquiry_of};

    /// The inquiry for a setting, if it can be asked for.
    #[inline(always)]
    pub fn of(setting: Setting) -> Option<Inquiry>
        ensures { result ≡ inquiry_of setting }
    {
        let form = Form::of(setting)?;
        Some(Inquiry { setting, form })
    }
}
